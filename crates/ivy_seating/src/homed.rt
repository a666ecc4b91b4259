//! A seated site in its session.
ghost use Rattle.std.specs.Prelude.{◌≡◌};

use crate::seated::Seated;
use ivy_ether::Setup;
use std::alloc::Allocator;
use std::marker::{Brand, PhantomData};

/// Names the ether of a session. Who lays the ether picks the name, at `Brand`.
pub trait Home {
    ghost use Rattle.atomic_table.specs.Seated.{TableId};

    ghost ether: { TableId };
}

impl Home for Brand {
    ghost use Rattle.ivy_seating.specs.Places.{no_ether};

    ghost ether = { no_ether };
}

/// A seated site whose ether is that of its session, as it stands behind its lock.
#[derive(Drop)]
pub struct Homed<'e, S: Setup, H: Home, A: Allocator> {
    /// The seated site.
    pub seated: Seated<'e, S, A>,
    of: PhantomData<H>,
    /// Unused bytes: what each turn reads here lies on no line of the cache with the lock of the next place.
    apart: [u64; 8],
    ghost home: { seated.ether ≡ H.ether },
}

impl<'e, S: Setup, H: Home, A: Allocator> Homed<'e, S, H, A> {
    /// A seated site, whose ether is the session's.
    pub fn new(seated: Seated<'e, S, A>) -> Self
        requires { seated.ether ≡ H.ether }
        ensures { result.seated ≡ seated.entry }
    {
        Homed {
            seated,
            of: PhantomData,
            apart: [0; 8],
        }
    }

    /// The seated site.
    pub fn into_seated(self) -> Seated<'e, S, A>
        ensures same { result ≡ self.entry.seated }
        ensures home { result.ether ≡ H.ether }
    {
        let Homed {
            seated,
            of: _,
            apart: _,
        } = self;
        seated
    }
}
