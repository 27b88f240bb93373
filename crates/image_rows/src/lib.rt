// No code: specs/Rows.antt holds the image's rules against the paper and order 4, a row for each.
#![tactic(auto)]
