//! How the nodes of a session of own code are seated, and how their sites are taken at its end.
ghost use Rattle.std.specs.Prelude.{◌≡◌, ◌<◌, ◌≤◌, ◌+◌, ℕ, [], true, Some, All, IfErr, IfOk, IfSome, length, map, slice_get, vec_len};
ghost use Rattle.ivy_model.specs.stated.Config.{IsConfig};
ghost use Rattle.ivy_calls.specs.Answers.{answers};
ghost use Rattle.ivy_own.specs.Known.{listed};
ghost use Rattle.ivy_model.specs.declared.Config.{Config};
ghost use Rattle.ivy_program.specs.stated.Programs.{Called};
ghost use Rattle.ivy_site.specs.Sites.{first_opened};
ghost use Rattle.ivy_ether.specs.Rule.{times};
ghost use Rattle.ivy_ether.specs.Views.{beginner, with_issued};
ghost use Rattle.ivy_ether.specs.EtherViews.{IsNewcomer};
ghost use Rattle.ivy_workers.specs.Stops.{IsStop};
ghost use Rattle.ivy_seating.specs.Reports.{report_of, AllKeep};
ghost use Rattle.ivy_seating.specs.Collected.{TellsOf, AreTold};
ghost use Rattle.ivy_own.specs.Ended.{AreFresh, AreClosed, HasEnded};
ghost use Rattle.ivy_own.specs.Reports.{all_open};

use crate::joined::Ended;
use crate::owned::Owned;
use crate::{Half, Naming, Starter, Tie};
use ivy_calls::{Answer, Work};
use ivy_ether::{Ether, Pass, Setup, Wired};
use ivy_model::Fault;
use ivy_seating::{Home, Keep, Plan, Seated, Site, close_seat};
use std::alloc::Allocator;
use std::sync::{Mutex, Wait};

/// The places of the nodes, and their workers' halves of the lists of their answers.
#[derive(Drop)]
pub struct Places<'e, S: Setup, H: Home, J: Naming, A: Allocator> {
    /// The places.
    pub seats: Vec<Mutex<Owned<'e, S, H, J, A>>, A>,
    /// The workers' halves.
    pub mines: Vec<Half<Answer, J>, A>,
}

/// Seats a node with own code [1, 21]: its seat is issued and taken, and its site is made, which keeps these lists of its
/// own past.
fn seat_one<'e, S: Setup, A: Allocator + Copy, R: Wait, G>(
    plan: &Plan<'_, '_, A, R, G>,
    ether: &'e Ether<S, A>,
    starter: &mut Pass<Wired<A>>,
    pass: Pass<Wired<A>>,
    node: u8,
) -> Result<Seated<'e, S, A>, Fault>
    requires config { plan.now.config ≡ S.config }
    requires opened { plan.now.opening ≡ S.opened }
    requires limits { IsConfig plan.now.config }
    requires programs { S.programs ≡ all_open S.config }
    requires starter { (starter.old.ether ≡ ether.now) × (starter.old.known.starts ≡ true) }
    requires pass { IsNewcomer ether.now pass }
    requires node { node < plan.now.config.nodes }
    requires new { times node starter.old.known.issued ≡ 0 }
    ensures starter { starter.new.ether ≡ starter.old.ether }
    ensures issued { IfOk result (λ _. starter.new.known ≡ with_issued starter.old.known node) }
    ensures ether { IfOk result (λ seated. seated.ether ≡ ether.now) }
    ensures site { IfOk result (λ seated. seated.site ≡ first_opened S.opened plan.now.keep plan.now.config node (Called [] [])) }
    ensures stop { IfErr result IsStop }
{
    let mut pass = pass;
    if !ether.issue_seat(plan.rt, starter, node) {
        return Err(Fault::TurnLimit);
    }
    let Some(found) = ether.take_seat(plan.rt, &mut pass) else {
        return Err(Fault::TurnLimit);
    };
    if found != node {
        return Err(Fault::TurnLimit);
    }
    let site = Site::open_by(plan.alloc, &plan.config, node, plan.opening, plan.keep)?;
    Ok(Seated::new(ether, site, pass))
}

/// Puts a seated site in its place, and begins the list of its answers.
fn place_one<'e, S: Setup, H: Home, J: Naming, A: Allocator + Copy>(
    tie: &Tie<Answer, J, A>,
    lists: &mut Starter<Answer, J>,
    seated: Seated<'e, S, A>,
    node: u8,
    keep: Keep,
) -> (Owned<'e, S, H, J, A>, Half<Answer, J>)
    requires home { seated.ether ≡ H.ether }
    requires lists { lists.old ≡ node }
    requires site { (config : Config) × (seated.site ≡ first_opened S.opened keep config node (Called [] [])) }
    ensures mine { result.1 ≡ listed node [] }
    ensures next { lists.new ≡ node + 1 }
{
    // for the proof: the clauses name it.
    let _ = keep;
    let (half, mine) = tie.begin(lists);
    (Owned::new(seated, half), mine)
}

/// Seats all nodes [1, 21], with a pass for each. Each keeps the lists of its own past that the plan says.
pub fn place_all<'e, S: Setup, H: Home, J: Naming, A: Allocator + Copy, R: Wait, G>(
    plan: &Plan<'_, '_, A, R, G>,
    ether: &'e Ether<S, A>,
    tie: &Tie<Answer, J, A>,
    lists: &mut Starter<Answer, J>,
    starter: &mut Pass<Wired<A>>,
    passes: Vec<Pass<Wired<A>>, A>,
) -> Result<Places<'e, S, H, J, A>, Fault>
    requires home { ether.now ≡ H.ether }
    requires config { plan.now.config ≡ S.config }
    requires opened { plan.now.opening ≡ S.opened }
    requires limits { IsConfig plan.now.config }
    requires programs { S.programs ≡ all_open S.config }
    requires lists { lists.old ≡ 0 }
    requires starter { (starter.old.ether ≡ ether.now) × (starter.old.known ≡ beginner) }
    requires passes { All (IsNewcomer ether.now) passes.items }
    requires enough { vec_len passes ≡ plan.now.config.nodes }
    ensures starter { starter.new.ether ≡ starter.old.ether }
    ensures mines { IfOk result (λ places. vec_len places.mines ≡ plan.now.config.nodes) }
    ensures fresh { IfOk result (λ places. AreFresh places.mines.items) }
    ensures stop { IfErr result IsStop }
{
    let mut passes = passes;
    let mut seats = Vec::new(plan.alloc);
    let mut mines = Vec::new(plan.alloc);
    for node in 0..plan.config.nodes {
        let Some(pass) = passes.pop() else {
            unreachable!()
        };
        seats.reserve(1)?;
        mines.reserve(1)?;
        let seated = seat_one(plan, ether, starter, pass, node)?;
        let (owned, mine) = place_one(tie, lists, seated, node, plan.keep);
        seats.push_reserved(Mutex::new(owned));
        mines.push_reserved(mine);
    }
    Ok(Places { seats, mines })
}

/// The places of the nodes whose works have ended, and what these gave.
#[derive(Drop)]
pub struct WorkedPlaces<'e, S: Setup, H: Home, J: Naming, A: Allocator, T> {
    /// The places.
    pub seats: Vec<Mutex<Owned<'e, S, H, J, A>>, A>,
    /// What the works gave, with their workers' halves.
    pub all: Vec<Ended<T, J>, A>,
}

/// Closes all nodes, each of which keeps the lists that the plan says, and hands out their sites with what their works gave
/// [1, 21].
pub(crate) fn close_all<S: Setup, H: Home, J: Naming, A: Allocator + Copy, R, G, W: Work>(
    plan: &Plan<'_, '_, A, R, G>,
    ether: &Ether<S, A>,
    starter: &mut Pass<Wired<A>>,
    tie: &Tie<Answer, J, A>,
    work: &W,
    worked: WorkedPlaces<'_, S, H, J, A, W::Out>,
) -> Result<(Vec<Site<A>, A>, Vec<W::Out, A>), Fault>
    requires home { ether.now ≡ H.ether }
    requires starter { starter.old.ether ≡ ether.now }
    requires few { vec_len worked.all < 256 }
    requires done { (i : ℕ) (e : _) → slice_get worked.all.items i ≡ Some e → HasEnded (W.done work.now) i e.mine e.out }
    ensures starter { starter.new.ether ≡ starter.old.ether }
    ensures all { IfOk result (λ r. (vec_len r.0 ≡ vec_len worked.entry.all) × (vec_len r.1 ≡ vec_len worked.entry.all)) }
    ensures told { IfOk result (λ r. AreTold S.config S.opened S.programs starter.new.known (map report_of r.0.items)) }
    ensures keep { IfOk result (λ r. AllKeep plan.now.keep (map report_of r.0.items)) }
    ensures done { IfOk result (λ r. AreClosed (W.done work.now) (map report_of r.0.items) r.1.items) }
    ensures stop { IfErr result IsStop }
{
    // for the proof: the clauses name the work.
    let _ = work;
    let WorkedPlaces { seats, all } = worked;
    let mut seats = seats.into_iter();
    let mut sites = Vec::with_capacity(plan.alloc, all.len())?;
    let mut outs = Vec::with_capacity(plan.alloc, all.len())?;
    let mut node = 0u8;
    for ended in all {
        let Some(seat) = seats.next() else {
            return Err(Fault::TurnLimit);
        };
        let Ended { mine, out } = ended;
        let homed = seat.into_inner().agree(tie, mine, node)?;
        let site = close_seat(ether, starter, homed, node, plan.keep)?;
        sites.push_reserved(site);
        outs.push_reserved(out);
        node = node.wrapping_add(1);
    }
    Ok((sites, outs))
}
