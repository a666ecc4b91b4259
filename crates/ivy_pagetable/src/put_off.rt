/// What a message asks of a page.
#[derive(Clone, Copy, Debug, PartialEq, Eq)]
pub enum Request {
    /// A copy to read.
    Read,
    /// The page itself, to write.
    Write,
    /// That this node's copy be given up.
    Invalidate,
}

/// A message that waits until the entry of its page is no longer locked.
#[derive(Clone, Copy, Debug, PartialEq, Eq)]
pub struct PutOff {
    /// What it asks.
    pub kind: Request,
    /// The node whose call it is.
    pub origin: u8,
    /// The number of that call at its node, from 1.
    pub call: u64,
}

impl Default for PutOff {
    ghost use Rattle.std.specs.Prelude.{◌≡◌};
    ghost use Rattle.ivy_pagetable.specs.declared.put_off.Request.TheVariants.{Read};

    ghost is_default = { λ message. message ≡ record { kind = Read; origin = 0; call = 0 } };

    /// A request of node 0, which only fills places that hold no message yet.
    fn default() -> PutOff {
        PutOff {
            kind: Request::Read,
            origin: 0,
            call: 0,
        }
    }
}
