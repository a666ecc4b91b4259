//! What the frame of a string says.
ghost use Rattle.std.specs.Prelude.{◌≡◌, IfOk, IsOkAnd, length};
ghost use Rattle.ivy_model.specs.stated.Config.{IsConfig};
ghost use Rattle.ivy_wire.specs.Lent.{owned_content, owned_message};
ghost use Rattle.ivy_wire.specs.stated.Data.{Frame as StringFrame};
ghost use Rattle.ivy_wire.specs.stated.Spelling.{Spells};
ghost use Rattle.ivy_charts.specs.Heads.{IsHeadOf, about_in, head_in, page_in};

use ivy_model::{Config, Fault};
use ivy_wire::{Content, FrameKind, Message, read_frame};

/// What a message is about.
#[derive(Clone, Copy)]
pub struct About {
    /// The node whose call it is.
    pub origin: u8,
    /// The number of the call at that node, from 1.
    pub call: u64,
    /// The page, where it is about one.
    pub page: Option<u32>,
}

/// What the frame of a string says, but for the bytes of its page.
#[derive(Clone, Copy)]
pub struct RunHead {
    pub kind: FrameKind,
    /// The node that sent it.
    pub source: u8,
    /// The node that it is for.
    pub dest: u8,
    /// The number of its message, 0 where it has none.
    pub number: u64,
    /// How many bytes the string has.
    pub len: usize,
    /// What its message is about, where it has one.
    pub about: Option<About>,
}

/// The page that a message is about, where it is about one.
fn page_of(content: &Content<&[u8]>) -> Option<u32>
    ensures { result ≡ page_in (owned_content content.now) }
{
    match content {
        Content::ReadReq { page }
        | Content::WriteReq { page }
        | Content::ReadRep { page, .. }
        | Content::WriteRep { page, .. }
        | Content::Inval { page }
        | Content::InvalAck { page } => Some(*page),
        _ => None,
    }
}

fn about_of(message: &Message<&[u8]>) -> About
    ensures { result ≡ about_in (owned_message message.now) }
{
    About {
        origin: message.origin,
        call: message.call,
        page: page_of(&message.content),
    }
}

impl RunHead {
    /// What the frame of a string says [2, 11 to 16].
    pub fn read(config: &Config, bytes: &[u8]) -> Result<RunHead, Fault>
        ensures head { IfOk result (λ head. IsHeadOf config.now bytes.now head) }
        // Where the string spells a frame, the head of that one is given.
        ensures only { IsConfig config.now → (frame : StringFrame) → Spells config.now frame bytes.now → IsOkAnd result (λ head. head ≡ head_in frame (length bytes.now)) }
    {
        config.check_wide()?;
        let frame = read_frame(config, bytes)?;
        let about = match &frame.body {
            Some(message) => Some(about_of(message)),
            None => None,
        };
        Ok(RunHead {
            kind: frame.kind(),
            source: frame.source,
            dest: frame.dest,
            number: frame.number,
            len: bytes.len(),
            about,
        })
    }

    /// The page that its message is about, where it is about one.
    pub fn page(&self) -> Option<u32> {
        self.about?.page
    }

    /// The same, as a place among all pages.
    pub(crate) fn page_place(&self) -> Option<usize> {
        Some(self.page()? as usize)
    }

    /// Whether its message is of a call of the node that sent it.
    pub fn is_of_its_source(&self) -> bool {
        match self.about {
            Some(about) => about.origin == self.source,
            None => false,
        }
    }
}
