// That the records of specs/ are the contracts of the public functions: each function here only calls a public function, and its `ensures` is that
// function's record. The theorems of proofs/ are stated over those records.
#![tactic(auto)]

mod entries;
mod in_c;
mod others;
