//! Scripts with EXCLUSIVE as runs of the machine. Each contract gives the last record, and one that is wrong.
ghost use Rattle.std.specs.Prelude.{◌≡◌, ◌∷◌, [], false, true};
ghost use Rattle.ep_base.specs.Limits.{default_limits};
ghost use Rattle.ep_base.specs.declared.answer.Answer.TheVariants.{Done, Events, Still};
ghost use Rattle.ep_base.specs.declared.errno.Errno.TheVariants.{Enospc};
ghost use Rattle.ep_machine.specs.Run.{is_run};
ghost use Rattle.ep_runs.specs.ExclusiveScripts.{a_deadline_mark_comes_first};
ghost use Rattle.ep_runs.specs.ExclusiveScripts.{a_disarmed_link_carries_nothing};
ghost use Rattle.ep_runs.specs.ExclusiveScripts.{a_disarmed_link_finds_nobody};
ghost use Rattle.ep_runs.specs.ExclusiveScripts.{a_disarmed_link_guards};
ghost use Rattle.ep_runs.specs.ExclusiveScripts.{a_leavers_instance_dies};
ghost use Rattle.ep_runs.specs.ExclusiveScripts.{a_lost_mark, a_marked_waiter_above_is_none};
ghost use Rattle.ep_runs.specs.ExclusiveScripts.{a_wait_that_did_not_park_wakes_nobody};
ghost use Rattle.ep_runs.specs.ExclusiveScripts.{a_waiter_above};
ghost use Rattle.ep_runs.specs.ExclusiveScripts.{add_reaches_above};
ghost use Rattle.ep_runs.specs.ExclusiveScripts.{an_entry_that_does_not_ask_is_passed_over};
ghost use Rattle.ep_runs.specs.ExclusiveScripts.{an_instance_that_is_not_ready_is_passed_over};
ghost use Rattle.ep_runs.specs.ExclusiveScripts.{an_unmarked_resumption_wakes_nobody};
ghost use Rattle.ep_runs.specs.ExclusiveScripts.{close_of_the_target_marks_above};
ghost use Rattle.ep_runs.specs.ExclusiveScripts.{del_of_a_link_below_marks_above};
ghost use Rattle.ep_runs.specs.ExclusiveScripts.{del_of_the_guard_marks_above};
ghost use Rattle.ep_runs.specs.ExclusiveScripts.{err_and_hup_unasked};
ghost use Rattle.ep_runs.specs.ExclusiveScripts.{everybody_above_the_chosen_one};
ghost use Rattle.ep_runs.specs.ExclusiveScripts.{exit_takes_a_guard};
ghost use Rattle.ep_runs.specs.ExclusiveScripts.{first_in_order_of_registration};
ghost use Rattle.ep_runs.specs.ExclusiveScripts.{judged_before_any_other_mark};
ghost use Rattle.ep_runs.specs.ExclusiveScripts.{leaver_wakes_the_next};
ghost use Rattle.ep_runs.specs.ExclusiveScripts.{leaving_empty_wakes};
ghost use Rattle.ep_runs.specs.ExclusiveScripts.{refusals_in_order, two_targets_one_choice_each};
ghost use Rattle.ep_runs.specs.ExclusiveScripts.{two_targets_two_instances};
ghost use Rattle.ep_runs.specs.ParkRuns.{told};
ghost use Rattle.ep_runs.specs.Records.{add_call, answered, refused, report, resumed};

/// A caller that leaves an instance that stays ready wakes the next one there.
pub fn leaver_wakes_the_next()
    ensures run { is_run default_limits (leaver_wakes_the_next (told 2 4 1)) ≡ true }
    ensures no_run { is_run default_limits (leaver_wakes_the_next (resumed 2 Still [])) ≡ false }
{}

/// A wait that reports at once is no leaving.
pub fn a_wait_that_did_not_park_wakes_nobody()
    ensures run { is_run default_limits
        (a_wait_that_did_not_park_wakes_nobody (told 2 5 2)) ≡ true }
    ensures no_run { is_run default_limits
        (a_wait_that_did_not_park_wakes_nobody (resumed 2 Still [])) ≡ false }
{}

/// Of three instances the one that was registered first is woken, and not the one at which somebody parked first.
pub fn first_in_order_of_registration()
    ensures run { is_run default_limits (first_in_order_of_registration (told 1 4 3)) ≡ true }
    ensures no_run { is_run default_limits
        (first_in_order_of_registration (resumed 1 Still [])) ≡ false }
{}

/// A waiter that its deadline marks is no longer there to be found.
pub fn a_deadline_mark_comes_first()
    ensures run { is_run default_limits (a_deadline_mark_comes_first (told 1 4 1)) ≡ true }
    ensures no_run { is_run default_limits
        (a_deadline_mark_comes_first (resumed 1 Still [])) ≡ false }
{}

/// Two timers expire at once, and each of them makes a choice.
pub fn two_targets_one_choice_each()
    ensures run { is_run default_limits (two_targets_one_choice_each (resumed 2 Still [])) ≡ true }
    ensures no_run { is_run default_limits
        (two_targets_one_choice_each (resumed 2 (Events []) [])) ≡ false }
{}

/// Two targets wake two instances.
pub fn two_targets_two_instances()
    ensures run { is_run default_limits (two_targets_two_instances (told 2 64 2)) ≡ true }
    ensures no_run { is_run default_limits
        (two_targets_two_instances (resumed 2 Still [])) ≡ false }
{}

/// A waiter above the instance is found through it.
pub fn a_waiter_above()
    ensures run { is_run default_limits (a_waiter_above (told 2 64 3)) ≡ true }
    ensures no_run { is_run default_limits (a_waiter_above (resumed 2 Still [])) ≡ false }
{}

/// All that is above the chosen one is woken with it.
pub fn everybody_above_the_chosen_one()
    ensures run { is_run default_limits (everybody_above_the_chosen_one (told 1 4 1)) ≡ true }
    ensures no_run { is_run default_limits
        (everybody_above_the_chosen_one (resumed 1 Still [])) ≡ false }
{}

/// A disarmed registration on an instance passes nothing on.
pub fn a_disarmed_link_carries_nothing()
    ensures run { is_run default_limits (a_disarmed_link_carries_nothing (told 2 5 4)) ≡ true }
    ensures no_run { is_run default_limits
        (a_disarmed_link_carries_nothing (resumed 2 Still [])) ≡ false }
{}

/// ERR and HUP are told though the mask does not ask for them.
pub fn err_and_hup_unasked()
    ensures run { is_run default_limits
        (err_and_hup_unasked (resumed 1 (Events (report 16 5 ∷ [])) (1 ∷ []))) ≡ true }
    ensures no_run { is_run default_limits (err_and_hup_unasked (resumed 1 Still [])) ≡ false }
{}

/// The choice is made before any mark but those for deadlines.
pub fn judged_before_any_other_mark()
    ensures run { is_run default_limits (judged_before_any_other_mark (resumed 2 Still [])) ≡ true }
    ensures no_run { is_run default_limits
        (judged_before_any_other_mark (resumed 2 (Events []) [])) ≡ false }
{}

/// An addition that can be reported reaches what is above its instance.
pub fn add_reaches_above()
    ensures run { is_run default_limits (add_reaches_above (told 1 4 2)) ≡ true }
    ensures no_run { is_run default_limits (add_reaches_above (resumed 1 Still [])) ≡ false }
{}

/// A caller that asks in vain does not leave.
pub fn an_unmarked_resumption_wakes_nobody()
    ensures run { is_run default_limits
        (an_unmarked_resumption_wakes_nobody (resumed 2 Still [])) ≡ true }
    ensures no_run { is_run default_limits
        (an_unmarked_resumption_wakes_nobody (resumed 2 (Events []) [])) ≡ false }
{}

/// What EXCLUSIVE may not stand beside, on or after, each refusal at its place.
pub fn refusals_in_order()
    ensures run { is_run default_limits
        (refusals_in_order (answered (add_call 4 3 268435456 2) Done)) ≡ true }
    ensures no_run { is_run default_limits
        (refusals_in_order (refused (add_call 4 3 268435456 2) Enospc)) ≡ false }
{}

/// DEL of the last exclusive registration below marks a waiter above that was passed over.
pub fn del_of_the_guard_marks_above()
    ensures run { is_run default_limits (del_of_the_guard_marks_above (told 2 76 4)) ≡ true }
    ensures no_run { is_run default_limits
        (del_of_the_guard_marks_above (resumed 2 Still [])) ≡ false }
{}

/// So does the death of its target.
pub fn close_of_the_target_marks_above()
    ensures run { is_run default_limits (close_of_the_target_marks_above (told 2 76 4)) ≡ true }
    ensures no_run { is_run default_limits
        (close_of_the_target_marks_above (resumed 2 Still [])) ≡ false }
{}

/// What it watches guards the instance above all the same.
pub fn a_disarmed_link_guards()
    ensures run { is_run default_limits (a_disarmed_link_guards (told 2 76 6)) ≡ true }
    ensures no_run { is_run default_limits (a_disarmed_link_guards (resumed 2 Still [])) ≡ false }
{}

/// So does DEL of the registration that led down to it.
pub fn del_of_a_link_below_marks_above()
    ensures run { is_run default_limits (del_of_a_link_below_marks_above (told 2 87 5)) ≡ true }
    ensures no_run { is_run default_limits
        (del_of_a_link_below_marks_above (resumed 2 Still [])) ≡ false }
{}

/// So does a resumption after which the instance below dies.
pub fn a_leavers_instance_dies()
    ensures run { is_run default_limits (a_leavers_instance_dies (told 2 87 5)) ≡ true }
    ensures no_run { is_run default_limits (a_leavers_instance_dies (resumed 2 Still [])) ≡ false }
{}

/// So does the exit of the process that held the target.
pub fn exit_takes_a_guard()
    ensures run { is_run default_limits (exit_takes_a_guard (told 2 87 5)) ≡ true }
    ensures no_run { is_run default_limits (exit_takes_a_guard (resumed 2 Still [])) ≡ false }
{}

/// An instance that is not ready is passed over.
pub fn an_instance_that_is_not_ready_is_passed_over()
    ensures run { is_run default_limits
        (an_instance_that_is_not_ready_is_passed_over (resumed 2 (Events (report 4 5 ∷ [])) (2 ∷ [])))
        ≡ true }
    ensures no_run { is_run default_limits
        (an_instance_that_is_not_ready_is_passed_over (resumed 2 Still [])) ≡ false }
{}

/// A waiter above that is marked is not found again.
pub fn a_marked_waiter_above_is_none()
    ensures run { is_run default_limits (a_marked_waiter_above_is_none (told 1 64 3)) ≡ true }
    ensures no_run { is_run default_limits
        (a_marked_waiter_above_is_none (resumed 1 Still [])) ≡ false }
{}

/// A caller that is answered `Still` after its mark does not leave either.
pub fn a_lost_mark()
    ensures run { is_run default_limits (a_lost_mark (told 1 4 1)) ≡ true }
    ensures no_run { is_run default_limits (a_lost_mark (resumed 1 Still [])) ≡ false }
{}

/// A caller that leaves with nothing at its deadline wakes the next one.
pub fn leaving_empty_wakes()
    ensures run { is_run default_limits (leaving_empty_wakes (told 3 63 2)) ≡ true }
    ensures no_run { is_run default_limits (leaving_empty_wakes (resumed 3 Still [])) ≡ false }
{}

/// Nor is a waiter found through it.
pub fn a_disarmed_link_finds_nobody()
    ensures run { is_run default_limits (a_disarmed_link_finds_nobody (told 3 109 3)) ≡ true }
    ensures no_run { is_run default_limits
        (a_disarmed_link_finds_nobody (resumed 3 Still [])) ≡ false }
{}

/// An exclusive registration whose mask has none of the raised bits is passed over.
pub fn an_entry_that_does_not_ask_is_passed_over()
    ensures run { is_run default_limits
        (an_entry_that_does_not_ask_is_passed_over (told 3 67 4)) ≡ true }
    ensures no_run { is_run default_limits
        (an_entry_that_does_not_ask_is_passed_over (resumed 3 Still [])) ≡ false }
{}
