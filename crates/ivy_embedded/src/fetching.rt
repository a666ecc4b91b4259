//! Pages that a node fetches ahead for its program.
ghost use Rattle.std.specs.Prelude.{◌≡◌, ◌≢◌, Ok, false, MatchResult, IfErr};
ghost use Rattle.ivy_embedded.specs.Fetches.{AfterAhead, CanBeFetched, IsFetchRefusal, is_to_write};
ghost use Rattle.ivy_embedded.specs.Lending.{lending_at};
ghost use Rattle.ivy_embedded.specs.declared.lending.Lending.TheVariants.{Unlent};

use crate::embedded::{Declined, Embedded};
use crate::lending::Lending;

/// Whether a page that is fetched for this is fetched to be written.
fn is_to_write(to: Lending) -> bool
    ensures { result ≡ is_to_write to }
{
    match to {
        Lending::Unlent | Lending::ToRead => false,
        Lending::ToWrite => true,
    }
}

impl Embedded {
    /// Has the node fetch a page ahead, to be read or to be written, in a turn: it is asked for, and comes while the program
    /// goes on [1, 17]. It says whether the page is asked for from now on. No call is of it, and there is no reply to it.
    ///
    /// Else nothing is done: so it is with a page that is lent, and where the site does nothing ([`ivy_site::Site::fetch`]).
    pub fn fetch(&mut self, page: u32, to: Lending) -> Result<bool, Declined>
        ensures done { MatchResult result (λ begun. AfterAhead begun page to self.old self.new) (λ _. self.new ≡ self.old) }
        ensures lent { CanBeFetched self.old page to → lending_at self.old page ≢ Unlent → result ≡ Ok false }
        ensures refused { IfErr result (λ why. IsFetchRefusal why page to self.old) }
    {
        if to == Lending::Unlent || page >= self.site.config().pages {
            return Err(Declined::NoSuchLending);
        }
        if self.lendings.at(page) != Lending::Unlent {
            return Ok(false);
        }
        self.site.sound();
        match self.site.fetch(page, is_to_write(to)) {
            Ok(begun) => {
                if begun {
                    self.site.sound();
                    self.turns = self.turns.wrapping_add(1);
                }
                Ok(begun)
            }
            Err(fault) => Err(Declined::Fault(fault)),
        }
    }
}
