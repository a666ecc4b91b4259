//! Whether one flat memory answers as an order says.
ghost use Rattle.std.specs.Prelude.{◌↔◌, IsTrue, IfOk, MatchResult};
ghost use Rattle.std.specs.Io.KnownBytes.{Appends};
ghost use Rattle.ivy_model.specs.stated.Config.{IsConfig};
ghost use Rattle.ivy_model.specs.stated.Legal.{Legal};
ghost use Rattle.ivy_texts.specs.Lines.{verdict_line};
ghost use Rattle.ivy_simulation.specs.Judged.{PrintsVerdict};

use crate::halt::Halt;
use ivy_model::{Config, Kind, Record, check_order};
use ivy_texts::{Settings, parse_order, print_verdict};
use std::alloc::Global;
use std::io::Write;

/// Prints whether one flat memory answers so, and says it.
fn judge<W: Write>(
    alloc: Global,
    config: &Config,
    records: &[Record],
    out: &mut W,
) -> Result<bool, Halt>
    requires { IsConfig config.now }
    ensures legal { IfOk result (λ yes. IsTrue yes ↔ Legal config.now records.now) }
    ensures printed { MatchResult result (λ yes. Appends (W.contents out.old) (W.contents out.new) (verdict_line yes)) (λ _. Unit {0}) }
{
    let is_legal = check_order(alloc, config, records)?;
    print_verdict(is_legal, out)?;
    Ok(is_legal)
}

/// Prints whether the order of a text is legal, and says it [1, 2, 20].
pub fn check<W: Write>(alloc: Global, text: &str, out: &mut W) -> Result<bool, Halt>
    ensures { MatchResult result (λ yes. PrintsVerdict text.now yes (W.contents out.old) (W.contents out.new)) (λ _. Unit {0}) }
{
    let order = parse_order(alloc, text)?;
    // Legality does not depend on how owners are found.
    let settings = Settings {
        pages: order.sizes.pages,
        page_size: order.sizes.page_size,
        manager: Kind::Fixed,
    };
    let config = settings.config(order.sizes.nodes as usize)?;
    judge(alloc, &config, &order.records, out)
}
