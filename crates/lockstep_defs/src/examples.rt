//! Small designs, and what the definitions give for them.
ghost use Rattle.std.specs.Prelude.{◌≡◌, [], ◌∷◌, true, false};
ghost use Rattle.flow_design.specs.declared.report.Verdict.TheVariants.{Done, Deadlock, Cycles, Ops};
ghost use Rattle.lockstep_defs.specs.{report, marks, event, held_by_channel, access, step_mark, Shows.Shows};
ghost use Rattle.flow_word.specs.declared.access.Kind.TheVariants as Kind;
ghost use Rattle.flow_design.specs.declared.state.Advance.TheVariants as Advance;
ghost use Rattle.flow_design.specs.declared.state.Reply.TheVariants as Reply;
ghost use Rattle.lockstep_defs.specs.Examples as Examples;

/// Values that go from a source to a sink.
pub fn sources_and_sinks()
    ensures plain_case { Shows Examples.plain_case (Done 3) ((8 ∷ []) ∷ []) [] }
    ensures plain_events { (report Examples.plain_case).events ≡ event 0 Kind.Read 0 0 ∷ event 0 Kind.Write 1 2 ∷ [] }
    ensures exhausted_source { Shows Examples.exhausted_source (Deadlock 0) ([] ∷ []) (held_by_channel 0 false 0 ∷ []) }
    ensures commit_order { Shows Examples.commit_order (Done 2) ((2 ∷ []) ∷ []) [] }
    ensures word_arithmetic { Shows Examples.word_arithmetic (Done 9)
        ((18446744073709551615 ∷ 7 ∷ 0 ∷ 18446744073709551488 ∷ 1 ∷ 18446744073709551615 ∷ 6 ∷ 16 ∷ 0 ∷ []) ∷ []) [] }
    ensures empty_design { Shows Examples.empty_design (Done 0) [] [] }
{}

/// The limits of clocks and operations, met exactly and exceeded.
pub fn limits()
    ensures exact_end { Shows Examples.exact_end (Done 3) ((8 ∷ []) ∷ []) [] }
    ensures cycle_limit_before_the_end { Shows Examples.cycle_limit_before_the_end (Cycles 2) ([] ∷ []) [] }
    ensures exact_operation_limit { Shows Examples.exact_operation_limit (Done 3) ((8 ∷ []) ∷ []) [] }
    ensures operation_limit_before_the_end { Shows Examples.operation_limit_before_the_end (Ops 1) ([] ∷ []) [] }
    ensures polling_loop { Shows Examples.polling_loop (Ops 3) [] [] }
    ensures polling_answers { (report Examples.polling_loop).answers ≡ (false ∷ false ∷ false ∷ []) ∷ [] ∷ [] }
{}

/// Blocking reads and writes between modules.
pub fn fifos()
    ensures visibility_one_clock_later { Shows Examples.visibility_one_clock_later (Done 4) ((5 ∷ []) ∷ []) [] }
    ensures visibility_events { (report Examples.visibility_one_clock_later).events
        ≡ event 0 Kind.Read 0 0 ∷ event 0 Kind.Write 1 1 ∷ event 1 Kind.Read 1 2 ∷ event 1 Kind.Write 2 3 ∷ [] }
    ensures three_values_through_depth_two { Shows Examples.three_values_through_depth_two (Done 4) [] [] }
    ensures events_through_depth_two { (report Examples.three_values_through_depth_two).events
        ≡ event 0 Kind.Write 0 0 ∷ event 0 Kind.Write 0 1 ∷ event 1 Kind.Read 0 1
        ∷ event 0 Kind.Write 0 2 ∷ event 1 Kind.Read 0 2 ∷ event 1 Kind.Read 0 3 ∷ [] }
    ensures three_values_through_depth_one { Shows Examples.three_values_through_depth_one (Done 6) [] [] }
    ensures events_through_depth_one { (report Examples.three_values_through_depth_one).events
        ≡ event 0 Kind.Write 0 0 ∷ event 1 Kind.Read 0 1 ∷ event 0 Kind.Write 0 2
        ∷ event 1 Kind.Read 0 3 ∷ event 0 Kind.Write 0 4 ∷ event 1 Kind.Read 0 5 ∷ [] }
{}

/// FIFOs with a delay of more than one clock, at two depths.
pub fn delayed_fifos()
    ensures five_clocks_later { Shows Examples.five_clocks_later (Done 8) ((5 ∷ []) ∷ []) [] }
    ensures later_events { (report Examples.five_clocks_later).events
        ≡ event 0 Kind.Read 0 0 ∷ event 0 Kind.Write 1 1 ∷ event 1 Kind.Read 1 6 ∷ event 1 Kind.Write 2 7 ∷ [] }
    ensures late_through_depth_two { Shows (Examples.three_values_late 2) (Done 12) [] [] }
    ensures late_events_through_depth_two { (report (Examples.three_values_late 2)).events
        ≡ event 0 Kind.Write 0 0 ∷ event 0 Kind.Write 0 1 ∷ event 1 Kind.Read 0 5
        ∷ event 0 Kind.Write 0 6 ∷ event 1 Kind.Read 0 6 ∷ event 1 Kind.Read 0 11 ∷ [] }
    ensures late_through_depth_three { Shows (Examples.three_values_late 3) (Done 8) [] [] }
    ensures late_events_through_depth_three { (report (Examples.three_values_late 3)).events
        ≡ event 0 Kind.Write 0 0 ∷ event 0 Kind.Write 0 1 ∷ event 0 Kind.Write 0 2
        ∷ event 1 Kind.Read 0 5 ∷ event 1 Kind.Read 0 6 ∷ event 1 Kind.Read 0 7 ∷ [] }
{}

/// FIFOs with a delay of more than one clock: queries of them, and modules that wait for one another through them.
pub fn delayed_queries_and_deadlocks()
    ensures there_in_time { Shows (Examples.tried_pop_late 1) (Done 8) ((1 ∷ []) ∷ []) [] }
    ensures not_there_yet { Shows (Examples.tried_pop_late 2) (Done 8) ((0 ∷ []) ∷ []) [] }
    ensures slow_deadlock { Shows Examples.slow_deadlock (Deadlock 0) [] (held_by_channel 0 false 1 ∷ held_by_channel 1 false 0 ∷ []) }
    ensures held_by_the_second { Shows Examples.held_by_the_second (Deadlock 1) [] (held_by_channel 1 false 1 ∷ []) }
{}

/// Queries: operations that never block.
pub fn queries()
    ensures tie_in_the_clock { Shows Examples.tie_in_the_clock (Done 7) ((0 ∷ []) ∷ []) [] }
    ensures one_clock_after_the_push { Shows Examples.one_clock_after_the_push (Done 8) ((1 ∷ []) ∷ []) [] }
    ensures two_least_queries { Shows Examples.two_least_queries (Done 2) ((0 ∷ []) ∷ (0 ∷ []) ∷ []) [] }
    ensures later_stall_delays_earlier_query { Shows Examples.later_stall_delays_earlier_query (Done 14) ((0 ∷ 0 ∷ []) ∷ []) [] }
    ensures both_ends_in_one_module { Shows Examples.both_ends_in_one_module (Done 3) ((2 ∷ []) ∷ []) [] }
    ensures outcome_at_depth_one { Shows (Examples.outcome_that_turns 1) (Done 10) ((0 ∷ []) ∷ []) [] }
    ensures outcome_at_depth_two { Shows (Examples.outcome_that_turns 2) (Done 10) ((1 ∷ []) ∷ []) [] }
{}

/// Modules that wait for one another.
pub fn deadlocks()
    ensures deadlock_at_once { Shows Examples.deadlock_at_once (Deadlock 0) []
        (held_by_channel 0 false 1 ∷ held_by_channel 1 false 0 ∷ []) }
    ensures deadlocked_record { Shows (Examples.deadlocked_record_goes_on 2) (Deadlock 2) ([] ∷ [])
        (held_by_channel 0 true 0 ∷ held_by_channel 1 false 1 ∷ []) }
    ensures record_that_goes_on { Shows (Examples.deadlocked_record_goes_on 3) (Done 9) ((3 ∷ []) ∷ []) [] }
    ensures run_ahead_past_full { Shows Examples.run_ahead_past_full (Deadlock 2) [] (held_by_channel 0 true 0 ∷ []) }
{}

/// Iterations that follow one another without a gap, and temps, memories and terminators.
pub fn blocks_and_loops()
    ensures back_to_back { Shows Examples.back_to_back (Done 6) ((0 ∷ 0 ∷ 0 ∷ []) ∷ []) [] }
    ensures parts { Shows Examples.module_parts (Done 9) ((3 ∷ 1 ∷ 2 ∷ []) ∷ []) [] }
{}

/// The marks of modules' own runs.
pub fn own_runs()
    ensures ended { marks Examples.later_stall_delays_earlier_query 0
        ((Reply.Value 1 ∷ [])
        ∷ (Reply.Value 2 ∷ [])
        ∷ (Reply.Flag false ∷ [])
        ∷ (Reply.Done ∷ Reply.Flag false ∷ [])
        ∷ (Reply.Done ∷ [])
        ∷ [])
        20
        ≡ step_mark 0 (access Kind.Read 0 1 0 ∷ []) 0
        ∷ step_mark 1 (access Kind.Read 0 2 0 ∷ []) 0
        ∷ step_mark 1 (access Kind.Empty 1 1 0 ∷ []) 0
        ∷ step_mark 1 (access Kind.Write 2 1 0 ∷ access Kind.Empty 1 1 0 ∷ []) 1
        ∷ step_mark 1 (access Kind.Write 2 2 0 ∷ []) 2
        ∷ Advance.Ended 1
        ∷ [] }
    ensures waiting { marks Examples.later_stall_delays_earlier_query 0 ((Reply.Value 1 ∷ []) ∷ (Reply.Value 2 ∷ []) ∷ []) 20
        ≡ step_mark 0 (access Kind.Read 0 1 0 ∷ []) 0
        ∷ step_mark 1 (access Kind.Read 0 2 0 ∷ []) 0
        ∷ step_mark 1 (access Kind.Empty 1 1 0 ∷ []) 0
        ∷ [] }
    ensures spent { marks Examples.polling_loop 0
        ((Reply.Missed ∷ []) ∷ (Reply.Missed ∷ []) ∷ (Reply.Missed ∷ []) ∷ [])
        20
        ≡ step_mark 0 (access Kind.TryRead 0 1 0 ∷ []) 0
        ∷ step_mark 1 (access Kind.TryRead 0 1 0 ∷ []) 1
        ∷ step_mark 1 (access Kind.TryRead 0 1 0 ∷ []) 2
        ∷ Advance.Spent 1
        ∷ [] }
{}
