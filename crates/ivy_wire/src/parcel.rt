//! Messages on their way to the link, and what takes them.
ghost use Rattle.std.specs.Prelude.{◌≡◌, [], ◌∷◌, map, All, IfErr, OnOk};
ghost use Rattle.ivy_model.specs.Wants.{RanOut};
ghost use Rattle.ivy_wire.specs.Lent.{owned_content, owned_parcel};
ghost use Rattle.ivy_wire.specs.stated.Spelling.{FitsParcel};
ghost use Rattle.ivy_wire.specs.stated.Posts.{parcel_to};
ghost use Rattle.ivy_wire.specs.Posts.{HasPosted};

use crate::frame::{Content, Message};
use ivy_model::Fault;

/// A message from one node to another. A step lends the page that it sends, as `Parcel<&[u8]>`.
#[derive(Clone, Debug, Drop, PartialEq, Eq)]
pub struct Parcel<B> {
    /// The node that sends it.
    pub source: u8,
    /// The node that it goes to.
    pub dest: u8,
    /// What is sent.
    pub message: Message<B>,
}

/// What takes messages: a whole list or none of it.
///
/// That is all that the trait alone promises. It keeps no list of what was ever taken, since a link forgets
/// a message once it was acknowledged: what `after` keeps of a list, each post says for itself.
pub trait Post {
    ghost use Rattle.ivy_wire.specs.Posts.{PostOps, PostLaws};

    /// What the calls are, as functions on what contracts see of the post.
    ghost ops: { PostOps Self };

    /// Takes all of the parcels, in order, or refuses them all [1, 17].
    ///
    /// They are messages of this node to others, and fit the configuration.
    fn post(&mut self, parcels: &[Parcel<&[u8]>]) -> Result<(), Fault>
        requires fits { All (FitsParcel (ops.config self.old) (ops.node self.old)) (map owned_parcel parcels.now) }
        ensures ok { OnOk result (self.new ≡ ops.after self.old (map owned_parcel parcels.now)) }
        ensures took { OnOk result (ops.takes self.old (map owned_parcel parcels.now)) }
        ensures fault { IfErr result (ops.refuses self.old (map owned_parcel parcels.now)) }
        ensures err { IfErr result
            (λ fault. self.new ≡ ops.after_refusal self.old (map owned_parcel parcels.now) fault) }
        ensures want { IfErr result RanOut };

    ghost laws: { PostLaws ops };
}

/// A message of a call of `origin`, from one node to another.
pub fn parcel_to(
    source: u8,
    dest: u8,
    origin: u8,
    call: u64,
    content: Content<&[u8]>,
) -> Parcel<&[u8]>
    ensures { owned_parcel result ≡ parcel_to source dest origin call (owned_content content.entry) }
{
    Parcel {
        source,
        dest,
        message: Message {
            origin,
            call,
            content,
        },
    }
}

/// Posts one message, or changes nothing [1, 17].
pub fn post_one<P: Post>(
    post: &mut P,
    source: u8,
    dest: u8,
    origin: u8,
    call: u64,
    content: Content<&[u8]>,
) -> Result<(), Fault>
    requires fits { FitsParcel (P.ops.config post.old) (P.ops.node post.old)
        (parcel_to source dest origin call (owned_content content)) }
    ensures { HasPosted P.ops post.old post.new result
        (parcel_to source dest origin call (owned_content content.entry) ∷ []) }
{
    post.post(&[parcel_to(source, dest, origin, call, content)])
}

impl<'a> Default for Parcel<&'a [u8]> {
    ghost use Rattle.ivy_wire.specs.Lent.{filling};

    ghost is_default = { λ p. owned_parcel p ≡ filling };

    /// A request of node 0, which only fills places that hold no parcel yet.
    fn default() -> Self {
        Parcel {
            source: 0,
            dest: 0,
            message: Message {
                origin: 0,
                call: 0,
                content: Content::ReadReq { page: 0 },
            },
        }
    }
}
