// The laws of the clock dialect as calls: each is proved, and does nothing.
use clock_laws::{
    clock_ends, clock_runs, clock_text_ends, clock_text_runs, no_clock_task_is_held,
    numbers_are_named, worked_clock_runs, worked_clock_texts,
};
use clock_semantics::{
    clock_coming_by_table, clock_fault_is_of_text, clock_plan_is_checked,
    clock_unfolding_by_points, each_activity_stops, worked_clock_programs,
};

#[test]
fn laws_are_called() {
    clock_runs();
    clock_ends();
    no_clock_task_is_held();
    worked_clock_runs();
    clock_plan_is_checked();
    clock_fault_is_of_text();
    each_activity_stops();
    clock_coming_by_table();
    worked_clock_programs();
    clock_unfolding_by_points();
    numbers_are_named();
    clock_text_runs();
    clock_text_ends();
    worked_clock_texts();
}
