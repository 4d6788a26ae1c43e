// Known values, of 01, 02, RFC 5794 and libcrypto, and answers about the limits of cases, computed from the definitions that the contracts
// cite. There is no code here; how compiled code is held to such values, docs/TESTING.md says.
#![tactic(auto)]
