// What checking, finding and opening give, by their contracts or the definitions that these cite: ranges that join, the search that ends
// early, years of both spans, and layout 1 without a tag key. Theorems alone, with no code, so that an edit of one does not prove the code
// of `opening` again.
#![tactic(auto)]
