// What it is for a script to put an image into a card, and what the checker answers: specs/Sending.antt
// has the list of calls that send a script, specs/Check.antt the checker's answer, and specs/Demand.antt
// demand 3, which ties the two; proofs/Demand.antt proves it. It has no function; `checker` has the code.

#![tactic(auto)]
