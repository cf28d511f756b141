// Steps of a proof that follows a function's statements by hand, and the names that such a proof uses. No code.
#![tactic(auto)]
