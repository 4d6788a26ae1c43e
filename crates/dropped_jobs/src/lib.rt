// What dropping jobs gives, whatever call meets its contract: its answers by the archive's entries, and what is left. Theorems alone, with
// no code, as in `opened_jobs`.
#![tactic(auto)]
