//! The number behind an option.
ghost use Rattle.std.specs.Prelude.{◌≡◌, ◌≤◌, IfOk};
ghost use Rattle.std.specs.Str.Parse.{digits_value};
ghost use Rattle.ivy_program.specs.texts.Numbers.{IsNumber};

use crate::misuse::Misuse;
use crate::table::Bounds;
use ivy_program::parse_number;

/// The number that the word behind the option of this name spells, if it is within bounds.
pub(crate) fn number_within<'a>(
    name: &'static str,
    word: &'a str,
    bounds: Bounds,
) -> Result<u64, Misuse<'a>>
    ensures spelled { IfOk result (λ n. IsNumber word.now × (n ≡ digits_value 10 word.now)) }
    ensures within { IfOk result (λ n. (bounds.least ≤ n) × (n ≤ bounds.most)) }
{
    let Some(number) = parse_number(word) else {
        return Err(Misuse::NoNumber { name, word });
    };
    if number < bounds.least {
        return Err(Misuse::TooLow {
            name,
            least: bounds.least,
        });
    }
    if number > bounds.most {
        return Err(Misuse::TooHigh {
            name,
            most: bounds.most,
        });
    }
    Ok(number)
}

/// The same, where the number is a power of two.
pub(crate) fn power_within<'a>(
    name: &'static str,
    word: &'a str,
    bounds: Bounds,
) -> Result<u64, Misuse<'a>>
    ensures spelled { IfOk result (λ n. IsNumber word.now × (n ≡ digits_value 10 word.now)) }
    ensures within { IfOk result (λ n. (bounds.least ≤ n) × (n ≤ bounds.most)) }
{
    let number = number_within(name, word, bounds)?;
    if !number.is_power_of_two() {
        return Err(Misuse::NoPower(name));
    }
    Ok(number)
}
