// Histories: what "every octet once" (demand 3) means, for every kind of subject that is charged. This crate has no code.
//
// What a reader must believe stands in specs/, to be read in this order:
//   History   a history: how it started, and what was heard, each thing at its time
//   Records   what a kind of subject provides; the stretches that cuts make, the records that closings make, what is left open
//   Log       the accepted events, and the histories of a name among them
//   Run       calls, their answers, and so the log of a run
//   Demand    what one history must be, and demand 3 of a node with slots
//   Calls     demand 3 of one call
//   Table     how a node of slots hears events: for the step of such a node, and no part of demand 3
//   Slots     such a table as an array of slots, each active or free: for the code of such a node, and no part of demand 3
//   Sample    a small node that meets the demand: two kinds of subject, two settings, calls of one event and of several
// Lists has the short words that these use.
//
// proofs/ has the theorem for every kind and every such node (Demand), the same of each call (Calls), what it says of all that is
// written and stored under a name (Everything), the laws of one history (Records, Whole), and what an instance uses (Tables, Runs;
// and for its code Scans, Ranges, Slots and Heards: loops over the slots, some of them one after another, what is free and filled,
// and what the table does).
// Sample shows how a node takes all this.

#![tactic(auto)]
