// What sealing gives, whatever call meets its contract: archives that open to the plain bytes and that their own jobs rebuild, what is
// handed on of long files, the key length 0, and the refusals written out. Theorems alone, with no code, as in `opened_jobs`.
#![tactic(auto)]
