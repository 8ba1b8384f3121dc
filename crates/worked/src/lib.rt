// Worked values: a theorem over their table, and outside vectors and edges that the package is run against.
#![tactic(auto)]

ghost use Rattle.std.specs.Prelude.{◌≡◌, true};
ghost use Rattle.worked.specs.Table.{table, all_same};
ghost use Rattle.worked.specs.HeardTable.{heard_table};

pub mod annex_g;
#[cfg(test)]
mod edges;
#[cfg(test)]
mod hearing;
#[cfg(test)]
mod vectors;

// Every row of the table holds. It computes nothing: its contract is the theorem.
pub fn worked_values()
    ensures { all_same table ≡ true }
{}

// The same of what is heard.
pub fn heard_values()
    ensures { all_same heard_table ≡ true }
{}
