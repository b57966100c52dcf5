// Laws of tests, for proofs: a conjunction's two tests, a choice by a test, and a test that is computed
// at every number below a bound. It has no function.

#![tactic(auto)]
