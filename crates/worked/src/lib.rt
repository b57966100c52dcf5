// The worked numbers of document 01, proved together: specs/Worked.antt says what each row of its list
// means, by the definitions that contracts cite, and proofs/Worked.antt that all of them hold. It has
// no function.

#![tactic(auto)]
