//! A node's side of the calls of the heap: node 0 keeps the heap, and any other node asks it.
ghost use Rattle.std.specs.Prelude.{◌≡◌, ◌≢◌, false, [], ◌∷◌, ◌<◌, ◌≤◌, ◌⊎◌, IfOk, IfErr, OnOk, OnErr, IsOkUnless};
ghost use Rattle.ivy_model.specs.stated.Config.{IsConfig};
ghost use Rattle.ivy_model.specs.Wants.{RanOut};
ghost use Rattle.ivy_wire.specs.Lent.{owned_content, owned_message};
ghost use Rattle.ivy_wire.specs.stated.Spelling.{FitsMessage};
ghost use Rattle.ivy_wire.specs.stated.Posts.{parcel_to};
ghost use Rattle.ivy_wire.specs.Posts.{HasRefused};
ghost use Rattle.ivy_alloc.specs.declared.answer.CallProgress.TheVariants as answers;
ghost use Rattle.ivy_alloc.specs.declared.heap_side.HeapCall.TheVariants as kinds;
ghost use Rattle.ivy_alloc.specs.stated.HeapCalls.{first_side, closed, told_of, after_told, request, answer_to};
ghost use Rattle.ivy_alloc.specs.HeapCalls.{IsGrowth, IsGrowthPosted};
ghost use Rattle.ivy_alloc.specs.stated.HeapCalls.{block_told, end_told, reply_in, heap_begun, served_at, learns, heap_told, reply_told};

use crate::Heap;
use crate::answer::CallProgress;
use ivy_model::{Config, Fault, Reply};
use ivy_wire::{Content, Message, Post, post_one};
use std::alloc::Allocator;
use std::marker::Model;

/// The refusal of the end of a block that is not there.
const NOT_A_BLOCK: u8 = 10;

/// A call of the heap.
#[derive(Clone, Copy, Debug, PartialEq, Eq)]
pub enum HeapCall {
    /// A block of so many bytes.
    Alloc { size: u64 },
    /// The end of the block that starts at this address.
    Free { addr: u64 },
}

/// Where a call of the heap stands that node 0 was asked for.
#[derive(Clone, Copy, Debug, PartialEq, Eq)]
pub enum HeapRequest {
    /// Node 0 was asked, under this number, and has not answered yet.
    Asked { call: HeapCall, number: u64 },
    /// This is its answer.
    Told(Reply),
}

/// A node's side of the calls of the heap: node 0 keeps the heap, and any other node asks it.
#[derive(Drop)]
pub struct HeapSide<A: Allocator> {
    heap: Option<Heap<A>>,
    heap_request: Option<HeapRequest>,
}

impl<A: Allocator> Model for HeapSide<A> {
    ghost use Rattle.ivy_alloc.specs.stated.HeapCalls as sides;
    ghost use Rattle.std.specs.Coded.{codes};
    ghost use Rattle.ivy_alloc.specs.Heap.{heap_state_code};

    ghost Value = { sides.HeapSide };

    ghost coded = { Prim.hlevel (codes, heap_state_code) };

    ghost view = { λ s. record { heap = s.heap; heap_request = s.heap_request } };
}

/// How node 0 is asked.
fn request<'a>(call: HeapCall) -> Content<&'a [u8]>
    ensures { owned_content result ≡ request call }
{
    match call {
        HeapCall::Alloc { size } => Content::AllocReq { size },
        HeapCall::Free { addr } => Content::FreeReq { addr },
    }
}

/// How it answers.
fn answer_to<'a>(call: HeapCall, reply: Reply) -> Content<&'a [u8]>
    ensures { owned_content result ≡ answer_to call reply }
{
    match (call, reply) {
        (HeapCall::Alloc { .. }, Reply::Value(addr)) => Content::AllocRep { code: 0, addr },
        (HeapCall::Alloc { .. }, Reply::Done) => Content::AllocRep { code: 0, addr: 0 },
        (HeapCall::Alloc { .. }, Reply::Refused(code)) => Content::AllocRep { code, addr: 0 },
        (HeapCall::Free { .. }, Reply::Refused(code)) => Content::FreeRep { code },
        (HeapCall::Free { .. }, _) => Content::FreeRep { code: 0 },
    }
}

/// The heap serves a call, or nothing changes [1].
fn serve<A: Allocator + Copy>(heap: &mut Heap<A>, call: HeapCall) -> Result<Reply, Fault>
    ensures reply { IfOk result (λ reply. reply ≡ (told_of heap.old call).reply) }
    ensures ok { OnOk result (heap.new ≡ after_told heap.old (told_of heap.old call)) }
    ensures err { OnErr result (heap.new ≡ heap.old) }
    ensures fault { IfErr result (IsGrowth (answers.Given (told_of heap.old call).reply)) }
{
    match call {
        HeapCall::Alloc { size } => match heap.alloc(size) {
            Ok(addr) => Ok(Reply::Value(addr)),
            Err(Fault::Memory) => Err(Fault::Memory),
            Err(fault) => Ok(Reply::Refused(fault.number())),
        },
        HeapCall::Free { addr } => match heap.free(addr) {
            Ok(()) => Ok(Reply::Done),
            Err(fault) => Ok(Reply::Refused(fault.number())),
        },
    }
}

/// The reply that the answer to an Alloc is.
fn block_told(code: u8, addr: u64) -> Reply
    ensures { result ≡ block_told code addr }
{
    if code == 0 {
        Reply::Value(addr)
    } else {
        Reply::Refused(code)
    }
}

/// The reply that the answer to a Free is.
fn end_told(code: u8) -> Reply
    ensures { result ≡ end_told code }
{
    if code == 0 {
        Reply::Done
    } else {
        Reply::Refused(code)
    }
}

/// The reply that an answer of node 0 is, if it answers such a call.
fn reply_in(call: HeapCall, content: &Content<&[u8]>) -> Option<Reply>
    ensures { result ≡ reply_in call (owned_content content.now) }
{
    match (call, content) {
        (HeapCall::Alloc { .. }, Content::AllocRep { code, addr }) => {
            Some(block_told(*code, *addr))
        }
        (HeapCall::Free { .. }, Content::FreeRep { code }) => Some(end_told(*code)),
        _ => None,
    }
}

/// Another node is given a block, and told where, or why not [1, 17]. A block whose address could not be posted is
/// taken back.
fn give_block<A: Allocator + Copy, P: Post>(
    heap: &mut Heap<A>,
    me: u8,
    from: u8,
    size: u64,
    number: u64,
    post: &mut P,
) -> Result<(), Fault>
    requires number { 1 ≤ number }
    requires node { P.ops.node post.old ≡ me }
    requires here { me < (P.ops.config post.old).nodes }
    requires from { from < (P.ops.config post.old).nodes }
    requires foreign { from ≢ me }
    ensures ok { OnOk result (heap.new ≡ after_told heap.old (told_of heap.old (kinds.Alloc size))) }
    ensures posted { OnOk result (post.new ≡ P.ops.after post.old (parcel_to me from from number (answer_to (kinds.Alloc size) (told_of heap.old (kinds.Alloc size)).reply) ∷ [])) }
    ensures took { OnOk result (P.ops.takes post.old (parcel_to me from from number (answer_to (kinds.Alloc size) (told_of heap.old (kinds.Alloc size)).reply) ∷ [])) }
    ensures err { OnErr result (heap.new ≡ heap.old) }
    ensures fault { IfErr result (λ fault.
        (IsGrowth (answers.Given (told_of heap.old (kinds.Alloc size)).reply) fault
        × (post.new ≡ post.old))
        ⊎ HasRefused P.ops post.old post.new
        (parcel_to me from from number
        (answer_to (kinds.Alloc size) (told_of heap.old (kinds.Alloc size)).reply) ∷ [])
        fault) }
    ensures want { IfErr result RanOut }
{
    match heap.alloc(size) {
        Ok(addr) => {
            let body = Content::AllocRep { code: 0, addr };
            if let Err(fault) = post_one(post, me, from, from, number, body) {
                let _ = heap.free(addr);
                return Err(fault);
            }
            Ok(())
        }
        Err(Fault::Memory) => Err(Fault::Memory),
        Err(refusal) => {
            let code = refusal.number();
            post_one(
                post,
                me,
                from,
                from,
                number,
                Content::AllocRep { code, addr: 0 },
            )
        }
    }
}

/// The block of another node is ended once that node can be told, or why not [1, 17].
fn end_block<A: Allocator + Copy, P: Post>(
    heap: &mut Heap<A>,
    me: u8,
    from: u8,
    addr: u64,
    number: u64,
    post: &mut P,
) -> Result<(), Fault>
    requires number { 1 ≤ number }
    requires node { P.ops.node post.old ≡ me }
    requires here { me < (P.ops.config post.old).nodes }
    requires from { from < (P.ops.config post.old).nodes }
    requires foreign { from ≢ me }
    ensures ok { OnOk result (heap.new ≡ after_told heap.old (told_of heap.old (kinds.Free addr))) }
    ensures posted { OnOk result (post.new ≡ P.ops.after post.old (parcel_to me from from number (answer_to (kinds.Free addr) (told_of heap.old (kinds.Free addr)).reply) ∷ [])) }
    ensures took { OnOk result (P.ops.takes post.old (parcel_to me from from number (answer_to (kinds.Free addr) (told_of heap.old (kinds.Free addr)).reply) ∷ [])) }
    ensures err { OnErr result (heap.new ≡ heap.old) }
    ensures fault { IfErr result (HasRefused P.ops post.old post.new
        (parcel_to me from from number
        (answer_to (kinds.Free addr) (told_of heap.old (kinds.Free addr)).reply) ∷ [])) }
    ensures want { IfErr result RanOut }
{
    let code = if heap.is_block(addr) { 0 } else { NOT_A_BLOCK };
    post_one(post, me, from, from, number, Content::FreeRep { code })?;
    let _ = heap.free(addr);
    Ok(())
}

impl<A: Allocator + Copy> HeapSide<A> {
    /// The side of node `me` at the beginning [1].
    pub fn new(alloc: A, config: &Config, me: u8) -> Result<Self, Fault>
        requires limits { IsConfig config.now }
        ensures first { IfOk result (λ side. side ≡ first_side config.now me) }
        ensures memory { IsOkUnless result Fault.Memory }
    {
        let heap = if me == 0 {
            Some(Heap::new(alloc, config)?)
        } else {
            None
        };
        Ok(HeapSide {
            heap,
            heap_request: None,
        })
    }

    /// A call begins, as the one of this number [1, 17]. At node 0 it is served at once, and no message is posted. Else
    /// node 0 is asked, whatever it will refuse.
    ///
    /// A refused call has changed nothing.
    pub fn begin<P: Post>(
        &mut self,
        me: u8,
        call: HeapCall,
        number: u64,
        post: &mut P,
    ) -> Result<CallProgress, Fault>
        requires number { 1 ≤ number }
        requires node { P.ops.node post.old ≡ me }
        requires here { me < (P.ops.config post.old).nodes }
        requires away { self.old.heap ≡ None → me ≢ 0 }
        ensures begins { IfOk result (λ answer. answer ≢ CallProgress.Unserved) }
        ensures reply { IfOk result (λ answer. answer ≡ (heap_begun me self.old call number).answer) }
        ensures ok { OnOk result (self.new ≡ (heap_begun me self.old call number).after) }
        ensures posted { OnOk result (post.new ≡ P.ops.after post.old (heap_begun me self.old call number).posted) }
        ensures took { OnOk result (P.ops.takes post.old (heap_begun me self.old call number).posted) }
        ensures err { OnErr result (self.new ≡ self.old) }
        ensures fault { IfErr result (λ fault.
            (IsGrowth (heap_begun me self.old call number).answer fault
            × (post.new ≡ post.old))
            ⊎ HasRefused P.ops post.old post.new
            (heap_begun me self.old call number).posted fault) }
        ensures want { IfErr result RanOut }
    {
        if let Some(heap) = &mut self.heap {
            return Ok(CallProgress::Given(serve(heap, call)?));
        }
        post_one(post, me, 0, me, number, request(call))?;
        self.heap_request = Some(HeapRequest::Asked { call, number });
        Ok(CallProgress::Awaited)
    }

    /// Node 0 serves the call of another node, and answers it [1, 17]. It says whether this node keeps the heap.
    fn serve_for<P: Post>(
        &mut self,
        me: u8,
        from: u8,
        call: HeapCall,
        number: u64,
        post: &mut P,
    ) -> Result<bool, Fault>
        requires number { 1 ≤ number }
        requires node { P.ops.node post.old ≡ me }
        requires here { me < (P.ops.config post.old).nodes }
        requires from { from < (P.ops.config post.old).nodes }
        requires foreign { from ≢ me }
        ensures fits { IfOk result (λ fits. fits ≡ (served_at me self.old from number call self.old.heap).fits) }
        ensures ok { OnOk result (self.new ≡ (served_at me self.old from number call self.old.heap).after) }
        ensures posted { OnOk result (post.new ≡ P.ops.after post.old (served_at me self.old from number call self.old.heap).posted) }
        ensures took { OnOk result (P.ops.takes post.old (served_at me self.old from number call self.old.heap).posted) }
        ensures err { OnErr result (self.new ≡ self.old) }
        ensures fault { IfErr result (λ fault.
            (IsGrowthPosted (served_at me self.old from number call self.old.heap).posted fault
            × (post.new ≡ post.old))
            ⊎ HasRefused P.ops post.old post.new
            (served_at me self.old from number call self.old.heap).posted fault) }
        ensures want { IfErr result RanOut }
    {
        let Some(heap) = &mut self.heap else {
            return Ok(false);
        };
        match call {
            HeapCall::Alloc { size } => give_block(heap, me, from, size, number, post)?,
            HeapCall::Free { addr } => end_block(heap, me, from, addr, number, post)?,
        }
        Ok(true)
    }

    /// An answer of node 0 comes. It says whether node 0 was asked for a call of this number that is so answered;
    /// else nothing changes.
    fn learn(&mut self, number: u64, content: &Content<&[u8]>) -> bool
        ensures fits { result ≡ (learns self.old number (owned_content content.now) self.old.heap_request).fits }
        ensures after { self.new ≡ (learns self.old number (owned_content content.now) self.old.heap_request).after }
    {
        let Some(
            HeapRequest::Asked {
                call,
                number: asked,
            },
        ) = self.heap_request
        else {
            return false;
        };
        if number != asked {
            return false;
        }
        let Some(reply) = reply_in(call, content) else {
            return false;
        };
        self.heap_request = Some(HeapRequest::Told(reply));
        true
    }

    #[tactic(auto, unfolding(crate::specs::stated::HeapCalls::heap_told))]
    /// A message of another node [1, 17]. It says whether the message is one of the heap that fits a rule; else nothing
    /// changes.
    pub fn handle<P: Post>(
        &mut self,
        me: u8,
        from: u8,
        message: &Message<&[u8]>,
        post: &mut P,
    ) -> Result<bool, Fault>
        requires node { P.ops.node post.old ≡ me }
        requires here { me < (P.ops.config post.old).nodes }
        requires from { from < (P.ops.config post.old).nodes }
        requires foreign { from ≢ me }
        requires fits { FitsMessage (P.ops.config post.old) (owned_message message.now) }
        ensures fits { IfOk result (λ fits. fits ≡ (heap_told me self.old from (owned_message message.now)).fits) }
        ensures misfit { IfOk result (λ fits. fits ≡ false → (self.new ≡ self.old) × (post.new ≡ post.old)) }
        ensures ok { OnOk result (self.new ≡ (heap_told me self.old from (owned_message message.now)).after) }
        ensures posted { OnOk result (post.new ≡ P.ops.after post.old (heap_told me self.old from (owned_message message.now)).posted) }
        ensures took { OnOk result (P.ops.takes post.old (heap_told me self.old from (owned_message message.now)).posted) }
        ensures err { OnErr result (self.new ≡ self.old) }
        ensures fault { IfErr result (λ fault.
            (IsGrowthPosted (heap_told me self.old from (owned_message message.now)).posted fault
            × (post.new ≡ post.old))
            ⊎ HasRefused P.ops post.old post.new
            (heap_told me self.old from (owned_message message.now)).posted fault) }
        ensures want { IfErr result RanOut }
    {
        let call = match &message.content {
            Content::AllocReq { size } => HeapCall::Alloc { size: *size },
            Content::FreeReq { addr } => HeapCall::Free { addr: *addr },
            Content::AllocRep { .. } | Content::FreeRep { .. } => {
                let is_mine = from == 0 && message.origin == me;
                return Ok(is_mine && self.learn(message.call, &message.content));
            }
            _ => return Ok(false),
        };
        if message.origin != from {
            return Ok(false);
        }
        self.serve_for(me, from, call, message.call, post)
    }

    /// The reply of the call that node 0 was asked for, once it came. It takes no memory.
    pub fn reply(&self) -> Option<Reply>
        ensures { result ≡ reply_told self.now.heap_request }
    {
        let Some(HeapRequest::Told(reply)) = self.heap_request else {
            return None;
        };
        Some(reply)
    }

    /// The call that node 0 was asked for is over, if there is one. It takes no memory.
    pub fn close(&mut self)
        ensures { self.new ≡ closed self.old }
    {
        self.heap_request = None;
    }
}
