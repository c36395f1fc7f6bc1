// Every octet once (demand 3), of the node. This crate has no code.
//
// The theorem is `every_octet_once` (proofs/Once.antt): for every profile in range, and all calls from a fresh node, of one event and
// of lists of reports in any order, refused ones among them, `Once` holds. What a reader must believe, in this order:
//   history's specs   History, Records, Log, Run, Demand, Calls: histories, the stretches and records that they fall into, demand 3
//   Charging          what an event's octets mean, the five closing conditions, the S-CDR and the context that a history makes
//   Once              what is answered to calls, which events they hold and apply, what one call writes, and the statement over the octets
//   Activations       the same read activation by activation: its containers are those of its stretches, nothing lost, nothing twice
// None of these says how the node works: of the node they take a fresh one, the answers to its calls (`step_of`, and `batch_of`, a fold of
// it over the traffic events of a list), where its slots are, the sets of limits that it keeps, and what the code can hold. `step_of` is what the code's step is proved to
// answer (crates/node).
//
// That an S-CDR's octets read back as that S-CDR is `round_trip` of crates/scdr, for every record within the rules; that what a
// context of a sound node closes is within them is `closed_within` of crates/node.
//
// proofs/: Hears (a stored context hears as its history says), Handles (so does the table), Steps (what a call of one event does, by its
// answer), Calls (any call does what calls of one event do one by one, and what it counts), Pairs (what a pair of a list says), Readable
// (the octets read back), Serving (calls serve the table), Five (the closing conditions one by one), Closings (no two of them), EachCall
// (a call of one event), Once (the theorem), Billed (containers, octets and durations under a name), Activations (each activation, by
// `each_activation_once`), Session (01's session, by the definitions and by the node).

#![tactic(auto)]
