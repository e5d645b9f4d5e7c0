// What C programs link: the library's calls for the built-in layout set, on bytes and numbers.
// hosts/include/edi4.h declares them for C and C++.
#![tactic(auto)]

pub mod answer;
pub mod calls;
