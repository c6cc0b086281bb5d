//! The bench table. No code; the function has an empty body and stands for what it ensures.

#![tactic(auto)]

ghost use Rattle.bench.specs.Table.{table, AllSay};

/// Every case of the bench table that is marked P holds.
pub fn the_bench_table_holds()
    ensures { AllSay table }
{}
