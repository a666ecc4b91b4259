ghost use Rattle.std.specs.Prelude.{◌≡◌, IfOk};
ghost use Rattle.ivy_model.specs.stated.Config.{IsConfig};
ghost use Rattle.ivy_pagetable.specs.stated.Words.{IsWord};
ghost use Rattle.ivy_pagetable.specs.declared.word.Word.TheVariants as word;
ghost use Rattle.ivy_event.specs.stated.Counts.{word_of_count, offset_of_count};

use ivy_model::{Config, Fault};
use ivy_pagetable::Word;

/// Where eventcount `k` lies in page 0, in bytes.
fn offset_of(config: &Config, k: u64) -> Result<u32, Fault>
    requires { IsConfig config.now }
    ensures { result ≡ offset_of_count config.now k }
{
    if k < u64::from(config.page_size / 8) {
        Ok((8 * k) as u32)
    } else {
        Err(Fault::NoSuchCount)
    }
}

/// The word that gives the count of eventcount `k`. Refused with 6 exactly where there is no such
/// eventcount [6].
pub fn read(config: &Config, k: u64) -> Result<Word, Fault>
    requires { IsConfig config.now }
    ensures word { result ≡ word_of_count config.now k word.Count }
    ensures fits { IfOk result (λ w. IsWord config.now.page_size w) }
{
    Ok(Word::Count {
        offset: offset_of(config, k)?,
    })
}

/// The word that adds one to eventcount `k`. Refused with 6 exactly where there is no such
/// eventcount [6].
pub fn advance(config: &Config, k: u64) -> Result<Word, Fault>
    requires { IsConfig config.now }
    ensures word { result ≡ word_of_count config.now k word.Advance }
    ensures fits { IfOk result (λ w. IsWord config.now.page_size w) }
{
    Ok(Word::Advance {
        offset: offset_of(config, k)?,
    })
}

/// The word that gives the count of eventcount `k` once it is at least `least`. Refused with 6
/// exactly where there is no such eventcount [6].
pub fn await_at_least(config: &Config, k: u64, least: u64) -> Result<Word, Fault>
    requires { IsConfig config.now }
    ensures word { result ≡ word_of_count config.now k (λ offset. word.Await offset least) }
    ensures fits { IfOk result (λ w. IsWord config.now.page_size w) }
{
    Ok(Word::Await {
        offset: offset_of(config, k)?,
        least,
    })
}
