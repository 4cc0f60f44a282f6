//! epoll_ctl.
ghost use Rattle.std.specs.Prelude.{All, Bool, ◌≡◌, ◌≢◌, ◌==◌, ◌+◌, ◌++◌, ◌∷◌, ◌≤◌, ◌||◌, ℕ, [], if◌then◌else◌, IfErr};
ghost use Rattle.std.specs.Prelude.{IfNone, IfOk, IfSome, IsOk, IsSome, MatchResult, None, OnErr, Some, false, length};
ghost use Rattle.std.specs.Prelude.{not, true, unwrap_or};
ghost use Rattle.std.specs.List.{list_any};
ghost use Rattle.ep_base.specs.declared.answer.Answer.TheVariants.{Done};
ghost use Rattle.ep_machine.specs.Bits.{exclusive_bits, has_only};
ghost use Rattle.ep_machine.specs.Effect.{first};
ghost use Rattle.ep_calls.specs.Reply.{IsSettled};
ghost use Rattle.ep_calls.specs.Acts.{is_no_memory};
ghost use Rattle.ep_machine.specs.Watches.{is_add, is_legal, is_mod};
ghost use Rattle.ep_nest.specs.Links.{edges, without};
ghost use Rattle.ep_calls.specs.Climb.{AreNested, KeepsLinks, is_nested_key};
ghost use Rattle.ep_calls.specs.Control.{Alters, ChangesIf, Controls, EntersAt, IsBelow, IsFound, IsPlan, Names};
ghost use Rattle.ep_calls.specs.Control.{TellsBelow, addition, code_of, control_call, is_deep_at, is_done};
ghost use Rattle.ep_calls.specs.Control.{is_exclusive_at, is_refused_exclusive, is_refused_op, key_left};
ghost use Rattle.ep_calls.specs.Control.{raising_of_ctl, naming_refusals, next_entry, next_link, raising_after};
ghost use Rattle.ep_calls.specs.Control.{room_refusals};
ghost use Rattle.ep_calls.specs.Last.{NothingRefusesCall};
ghost use Rattle.ep_interest.specs.Registrations.{GainsKey, has_key, number_under as number_of_entry};
ghost use Rattle.ep_calls.specs.Does.{DoesCall};
ghost use Rattle.ep_calls.specs.Stands.{AreLinked};
ghost use Rattle.ep_calls.specs.declared.control.Named.{Named};
ghost use Rattle.ep_calls.specs.declared.control.Operation.TheVariants.{Add, Delete};
ghost use Rattle.ep_calls.specs.declared.raising.Raising.TheVariants.{Nowhere};
ghost use Rattle.ep_table.specs.Value.{number_under};

use crate::raising::Raising;
use crate::readiness::{is_reportable, shown_at};
use crate::{Outcome, Parts};
use bitflags::Flags;
use ep_base::{Answer, DescId, EntryId, Errno, Fd, Mask, Moment, Pid};
use ep_interest::{Addition, Interest};
use ep_nest::Graph;
use ep_table::Tables;
use std::alloc::AllocError;

/// The arguments of an epoll_ctl.
#[derive(Clone, Copy)]
pub struct Control {
    /// The descriptor of the instance.
    pub epfd: Fd,
    /// What to do: 1 adds, 2 deletes, 3 modifies; any other number is refused.
    pub op: i32,
    /// The descriptor that is watched.
    pub fd: Fd,
    /// The bits that are asked for, as the caller gave them.
    pub mask: Mask,
    /// The data that a report of the registration carries.
    pub tag: u64,
}

/// What its two descriptors name.
#[derive(Clone, Copy)]
pub struct Named {
    /// The description that the first names, an instance.
    pub instance: DescId,
    /// The description that the second names, which is watched.
    pub desc: DescId,
}

/// What it is asked to do with a registration.
#[derive(Clone, Copy)]
pub enum Operation {
    Add,
    Delete,
    Modify,
}

/// What it is about.
#[derive(Clone, Copy)]
pub struct Plan {
    /// What its descriptors name.
    pub named: Named,
    /// What it is asked to do.
    pub operation: Operation,
    /// The registration that is there.
    pub found: Option<EntryId>,
    /// Whether its target is an instance that is ready, which ADD and MOD want to know. `Parts::plan` leaves it
    /// `false`, so that a kernel can ask in its own way.
    pub below: bool,
    /// Whether the kernel has room for what it keeps of a registration. Without it an ADD that nothing refuses is want
    /// of memory. `Parts::plan` sets it `true`.
    pub has_room: bool,
}

/// The instance and the description that are named, or the refusal that comes first.
fn find_named(tables: &Tables, pid: Pid, epfd: Fd, fd: Fd) -> Result<Named, Errno>
    ensures { MatchResult result (Names tables.now pid.0 epfd.0 fd.0)
        (λ e. first (naming_refusals tables.now.files pid.0 epfd.0 fd.0) ≡ Some e) }
{
    let Some(instance) = tables.lookup(pid, epfd) else {
        return Err(Errno::Ebadf);
    };
    let Some(desc) = tables.lookup(pid, fd) else {
        return Err(Errno::Ebadf);
    };
    let target = tables.object(desc);
    if target.is_plain() {
        return Err(Errno::Eperm);
    }
    if !tables.object(instance).is_instance() || is_same(tables, instance, desc) {
        return Err(Errno::Einval);
    }
    Ok(Named { instance, desc })
}

/// Whether two keys are of one description.
fn is_same(tables: &Tables, a: DescId, b: DescId) -> bool
    requires first { IsSome (number_under tables.now a) }
    requires second { IsSome (number_under tables.now b) }
    ensures { result ≡ (unwrap_or (number_under tables.now a) 0
        == unwrap_or (number_under tables.now b) 0) }
{
    tables.known();
    a.0 == b.0
}

/// Whether a mask has nothing but what the mask of an exclusive registration may have.
fn is_allowed(mask: Mask) -> bool
    ensures { result ≡ has_only mask.0 exclusive_bits }
{
    let errors = Mask::ERR.union(Mask::HUP.union(Mask::WAKEUP.union(Mask::ET)));
    let allowed = Mask::IN.union(Mask::OUT.union(Mask::EXCLUSIVE.union(errors)));
    mask.intersection(allowed).0 == mask.0
}

/// Whether an addition with this mask and this target is refused for its EXCLUSIVE.
fn is_refused_addition(tables: &Tables, desc: DescId, mask: Mask) -> bool
    requires live { IsSome (number_under tables.now desc) }
    ensures { result ≡ is_refused_exclusive (is_nested_key tables.now desc) mask.0 }
{
    mask.intersects(Mask::EXCLUSIVE) && (tables.object(desc).is_instance() || !is_allowed(mask))
}

/// The operation that is asked for at this target. `None` if its number or the mask isn't accepted. DEL looks at no
/// mask.
fn operation_of(tables: &Tables, desc: DescId, args: Control) -> Option<Operation>
    requires live { IsSome (number_under tables.now desc) }
    ensures none { IfNone result
        (is_refused_op (is_nested_key tables.now desc) args.op args.mask.0 ≡ true) }
    ensures some { IfSome result
        (λ operation. (args.op ≡ code_of operation)
        × (is_refused_op (is_nested_key tables.now desc) args.op args.mask.0 ≡ false)) }
{
    match args.op {
        1 => {
            if is_refused_addition(tables, desc, args.mask) {
                return None;
            }
            Some(Operation::Add)
        }
        2 => Some(Operation::Delete),
        3 => {
            if args.mask.intersects(Mask::EXCLUSIVE) {
                return None;
            }
            Some(Operation::Modify)
        }
        _ => None,
    }
}

/// Whether a registration is exclusive.
fn is_exclusive(interest: &Interest, id: EntryId) -> bool
    requires there { IsSome (number_of_entry interest.now id) }
    ensures { result
        ≡ is_exclusive_at interest.now (unwrap_or (number_of_entry interest.now id) 0) }
{
    let entry = interest.entry(id);
    entry.mask.intersects(Mask::EXCLUSIVE)
}

/// Takes the link of a registration away. Only one of an instance has a link: for any other it looks at no link.
fn unlink(tables: &Tables, interest: &Interest, graph: &mut Graph, id: EntryId)
    requires there { IsSome (number_of_entry interest.now id) }
    requires linked { AreLinked tables.now interest.now }
    requires nested { AreNested tables.now interest.now graph.old }
    ensures { graph.new ≡ without id.0 graph.old }
{
    interest.known();
    let entry = interest.entry(id);
    if tables.object(entry.desc).is_instance() {
        graph.unlink(id);
    }
}

/// Deletes or modifies a registration that is there. It stays, with EEXIST for an addition, and with EINVAL if it is
/// exclusive and to be modified.
#[inline(always)]
fn alter(
    tables: &Tables,
    interest: &mut Interest,
    graph: &mut Graph,
    id: EntryId,
    operation: Operation,
    args: Control,
) -> Answer
    requires there { IsSome (number_of_entry interest.old id) }
    requires linked { AreLinked tables.now interest.old }
    requires nested { AreNested tables.now interest.old graph.old }
    ensures alters { Alters operation (unwrap_or (number_of_entry interest.old id) 0) args.mask
        args.tag interest.old interest.new result }
    ensures nested { KeepsLinks interest.old graph.old interest.new graph.new }
    ensures settled { IsSettled result }
    ensures real { is_no_memory result ≡ false }
    ensures added { interest.new.added ≡ interest.old.added }
    ensures changes { (named : Named)
        → ChangesIf result operation (Some id) named args interest.old interest.new }
{
    match operation {
        Operation::Add => Answer::Refused(Errno::Eexist),
        Operation::Delete => {
            interest.known();
            unlink(tables, interest, graph, id);
            interest.remove(id);
            interest.known();
            Answer::Done
        }
        Operation::Modify => {
            if is_exclusive(interest, id) {
                return Answer::Refused(Errno::Einval);
            }
            interest.modify(id, args.mask, args.tag);
            Answer::Done
        }
    }
}

/// What an ADD with these arguments adds.
fn addition_of(named: Named, args: Control) -> Addition
    ensures { result ≡ addition named args }
{
    Addition {
        instance: named.instance,
        fd: args.fd,
        desc: named.desc,
        mask: args.mask,
        tag: args.tag,
    }
}

/// Adds a registration with its link to an instance. An `Err` is want of memory and leaves both.
fn add_linked(
    interest: &mut Interest,
    graph: &mut Graph,
    named: Named,
    args: Control,
) -> Result<(), AllocError>
    requires absent { list_any (has_key named.instance args.fd named.desc) interest.old.entries
        ≡ false }
    requires legal { is_legal ((named.instance.0, named.desc.0) ∷ edges graph.old) ≡ true }
    requires named { All (λ l. IsSome (number_of_entry interest.old l.entry)) graph.old }
    ensures entries { IfOk result
        (λ _. interest.new.entries
        ≡ interest.old.entries ++ next_entry interest.old named args ∷ []) }
    ensures keys { IfOk result
        (λ _. GainsKey interest.old interest.new (record { 0 = interest.old.next })
        (interest.old.added + 1)) }
    ensures added { IfOk result (λ _. interest.new.added ≡ interest.old.added + 1) }
    ensures linked { IfOk result (λ _. graph.new ≡ graph.old ++ next_link interest.old named ∷ []) }
    ensures err { OnErr result ((interest.new ≡ interest.old) × (graph.new ≡ graph.old)) }
{
    let key = interest.next_key();
    graph.link(named.instance, named.desc, key)?;
    match interest.add(addition_of(named, args)) {
        Ok(_) => Ok(()),
        Err(error) => {
            graph.unlink(key);
            Err(error)
        }
    }
}

/// Adds a registration, with its link if it watches an instance. An `Err` is want of memory and leaves both.
fn add(
    interest: &mut Interest,
    graph: &mut Graph,
    named: Named,
    is_nested: bool,
    args: Control,
) -> Result<(), AllocError>
    requires absent { list_any (has_key named.instance args.fd named.desc) interest.old.entries
        ≡ false }
    requires legal { is_nested ≡ true
        → is_legal ((named.instance.0, named.desc.0) ∷ edges graph.old) ≡ true }
    requires named { All (λ l. IsSome (number_of_entry interest.old l.entry)) graph.old }
    ensures entries { IfOk result
        (λ _. interest.new.entries
        ≡ interest.old.entries ++ next_entry interest.old named args ∷ []) }
    ensures keys { IfOk result
        (λ _. GainsKey interest.old interest.new (record { 0 = interest.old.next })
        (interest.old.added + 1)) }
    ensures added { IfOk result (λ _. interest.new.added ≡ interest.old.added + 1) }
    ensures linked { IfOk result
        (λ _. graph.new
        ≡ graph.old ++ (if is_nested then next_link interest.old named ∷ [] else [])) }
    ensures err { OnErr result ((interest.new ≡ interest.old) × (graph.new ≡ graph.old)) }
{
    if is_nested {
        return add_linked(interest, graph, named, args);
    }
    interest.add(addition_of(named, args))?;
    Ok(())
}

/// Whether the instance may watch its target, which any may that is no instance. It changes nothing.
fn may_watch(graph: &mut Graph, named: Named, is_nested: bool) -> bool
    ensures stays { graph.new ≡ graph.old }
    ensures exact { result
        ≡ (not is_nested || is_legal ((named.instance.0, named.desc.0) ∷ edges graph.old)) }
{
    !is_nested || graph.may_add(named.instance, named.desc).is_ok()
}

/// Adds a registration that is not there. ENOENT for any other operation, ELOOP if instances would watch each other
/// in a loop or in too long a chain, and ENOSPC past `watches`.
/// A refusal and an `Err` leave the registrations. An `Err` is want of memory, or of the room that the plan tells of.
/// It comes only of an ADD that nothing refuses.
#[inline(always)]
fn enter(
    tables: &Tables,
    interest: &mut Interest,
    graph: &mut Graph,
    plan: Plan,
    args: Control,
) -> Result<Answer, AllocError>
    requires desc { IsSome (number_under tables.now plan.named.desc) }
    requires absent { list_any (has_key plan.named.instance args.fd plan.named.desc)
        interest.old.entries ≡ false }
    requires nested { AreNested tables.now interest.old graph.old }
    ensures ok { IfOk result
        (λ answer. EntersAt plan.operation tables.now graph.old plan.named args interest.old
        interest.new answer) }
    ensures changes { IfOk result
        (λ answer. ChangesIf answer plan.operation None plan.named args interest.old
        interest.new) }
    ensures nested { AreNested tables.now interest.new graph.new }
    ensures settled { IfOk result IsSettled }
    ensures real { IfOk result (λ answer. is_no_memory answer ≡ false) }
    ensures last { OnErr result
        ((exclusive : Bool) → first (room_refusals (is_add (code_of plan.operation))
        (is_mod (code_of plan.operation)) false exclusive
        (is_deep_at tables.now graph.old plan.named) tables.now.limits.watches
        (length interest.old.entries)) ≡ None) }
    ensures room { plan.has_room ≡ false
        → (interest.new ≡ interest.old) × (graph.new ≡ graph.old) }
    ensures stays { plan.operation ≢ Add → interest.new ≡ interest.old }
    ensures spared { plan.operation ≢ Add → IsOk result }
    ensures err { OnErr result ((interest.new ≡ interest.old) × (graph.new ≡ graph.old)) }
{
    let Plan {
        named,
        operation,
        ..
    } = plan;
    let Operation::Add = operation else {
        return Ok(Answer::Refused(Errno::Enoent));
    };
    interest.known();
    let is_nested = tables.object(named.desc).is_instance();
    if !may_watch(graph, named, is_nested) {
        return Ok(Answer::Refused(Errno::Eloop));
    }
    if tables.limits().watches() as usize <= interest.count() {
        return Ok(Answer::Refused(Errno::Enospc));
    }
    if !plan.has_room {
        return Err(AllocError);
    }
    add(interest, graph, named, is_nested, args)?;
    interest.known();
    Ok(Answer::Done)
}

/// A registration after a call on it.
#[derive(Clone, Copy)]
struct Left {
    /// What the descriptors of the call name.
    named: Named,
    /// The descriptor that is watched.
    fd: Fd,
    /// Its key; `None` if it is gone.
    id: Option<EntryId>,
    /// Whether its target is an instance that is ready.
    below: bool,
}

/// What it raises that a registration was added or modified: IN at its instance, if it is reportable.
fn look_at(tables: &Tables, now: Moment, interest: &Interest, left: Left) -> Raising
    requires linked { AreLinked tables.now interest.now }
    requires found { IsFound interest.now left.named left.fd left.id }
    requires below { IsBelow left.below tables.now now interest.now left.named left.fd }
    ensures { result ≡ raising_of_ctl tables.now now interest.now left.named left.fd }
{
    interest.known();
    let Some(id) = left.id else {
        return Raising::Nowhere;
    };
    let entry = interest.entry(id);
    if !is_reportable(entry, shown_at(tables, now, entry, left.below)) {
        return Raising::Nowhere;
    }
    Raising::Instance {
        desc: left.named.instance,
    }
}

/// The key of a registration after a call on it is done: a DEL takes it away.
fn key_left(operation: Operation, id: EntryId) -> Option<EntryId>
    ensures { result ≡ key_left operation id }
{
    match operation {
        Operation::Delete => None,
        Operation::Add | Operation::Modify => Some(id),
    }
}

impl Parts {
    /// What epoll_ctl comes to with an answer: if it is done, the registration that is left is looked at.
    #[inline(always)]
    fn controlled(&self, left: Left, answer: Answer) -> Outcome
        requires settled { IsSettled answer }
        requires real { is_no_memory answer ≡ false }
        requires found { is_done answer ≡ true
            → IsFound self.now.interest left.named left.fd left.id }
        requires below { is_done answer ≡ true
            → IsBelow left.below self.now.tables self.now.clock self.now.interest left.named
            left.fd }
        ensures answer { result.answer ≡ answer }
        ensures picked { result.picked ≡ [] }
        ensures raising { result.raising
            ≡ raising_after answer self.now.tables self.now.clock self.now.interest left.named
            left.fd }
    {
        let raising = match answer {
            Answer::Done => look_at(&self.tables, self.clock, &self.interest, left),
            _ => Raising::Nowhere,
        };
        Outcome::settled(answer, raising)
    }

    /// What an epoll_ctl with these arguments is about. If they alone refuse it, its outcome, by the refusal that
    /// comes first: EBADF if a descriptor names nothing, EPERM for a target that can't be polled, EINVAL if
    /// `epfd` is no instance or both name the same, and EINVAL for an operation or a mask that isn't accepted. It
    /// doesn't ask whether the target is an instance that is ready, and takes it that the kernel has room for what it
    /// keeps of a registration.
    pub fn plan(&self, pid: Pid, args: Control) -> Result<Plan, Outcome>
        ensures ok { IfOk result (IsPlan self.now pid.0 args) }
        ensures room { IfOk result (λ plan. plan.has_room ≡ true) }
        ensures err { IfErr result
            (λ outcome. (n caller : ℕ)
            → DoesCall n caller pid.0 (control_call args) outcome self.now self.now) }
        ensures refused { IfErr result (λ outcome. is_done outcome.answer ≡ false) }
        ensures picked { IfErr result (λ outcome. outcome.picked ≡ []) }
        ensures raising { IfErr result (λ outcome. outcome.raising ≡ Nowhere) }
    {
        self.tables.known();
        let named = match find_named(&self.tables, pid, args.epfd, args.fd) {
            Ok(named) => named,
            Err(errno) => return Err(Outcome::refused(errno)),
        };
        let Some(operation) = operation_of(&self.tables, named.desc, args) else {
            return Err(Outcome::refused(Errno::Einval));
        };
        let found = self.interest.find(named.instance, args.fd, named.desc);
        Ok(Plan {
            named,
            operation,
            found,
            below: false,
            has_room: true,
        })
    }

    /// Does what an epoll_ctl is about, or answers the refusal that comes first, in this order: ENOENT for MOD and
    /// DEL of what is not there, EEXIST for ADD of what is, EINVAL for MOD of an exclusive registration, ELOOP if
    /// instances would watch each other in a loop or in a chain of more than five, and ENOSPC past `watches`. What is
    /// added or modified and reportable at once raises IN at its instance. It looks at links between instances only
    /// if the target is an instance, and at no registration of that one. A refusal and an `Err` leave the parts. An
    /// `Err` is want of memory, or of the room that the plan tells of. It comes only of an ADD that nothing refuses.
    pub fn control(&mut self, pid: Pid, args: Control, plan: Plan) -> Result<Outcome, AllocError>
        requires plan { IsPlan self.old pid.0 args plan }
        requires below { TellsBelow plan.operation plan.below self.old plan.named.desc }
        ensures ok { IfOk result
            (λ outcome. (n caller : ℕ)
            → DoesCall n caller pid.0 (control_call args) outcome self.old self.new) }
        ensures controls { IfOk result (λ outcome. Controls plan args outcome self.old self.new) }
        ensures deletes { plan.operation ≡ Delete → IsSome plan.found
            → IfOk result (λ outcome. outcome.answer ≡ Done) }
        ensures last { OnErr result (NothingRefusesCall self.old pid.0 (control_call args)) }
        ensures room { plan.operation ≡ Add → plan.has_room ≡ false → self.new ≡ self.old }
        ensures added { plan.operation ≢ Add
            → self.new.interest.added ≡ self.old.interest.added }
        ensures spared { plan.operation ≢ Add → IsOk result }
        ensures err { OnErr result (self.new ≡ self.old) }
    {
        self.tables.known();
        self.interest.known();
        let Plan {
            named,
            operation,
            below,
            ..
        } = plan;
        let fd = args.fd;
        match plan.found {
            Some(key) => {
                let id = key_left(operation, key);
                let answer = alter(
                    &self.tables,
                    &mut self.interest,
                    &mut self.graph,
                    key,
                    operation,
                    args,
                );
                self.graph.known();
                Ok(self.controlled(
                    Left {
                        named,
                        fd,
                        id,
                        below,
                    },
                    answer,
                ))
            }
            None => {
                let id = Some(self.interest.next_key());
                let answer = enter(
                    &self.tables,
                    &mut self.interest,
                    &mut self.graph,
                    plan,
                    args,
                )?;
                self.graph.known();
                Ok(self.controlled(
                    Left {
                        named,
                        fd,
                        id,
                        below,
                    },
                    answer,
                ))
            }
        }
    }
}
