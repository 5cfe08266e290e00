// A kind of instance as odd as the laws allow, and examples of every kind. It shows that the laws suffice.
#![tactic(auto)]

pub mod odd;
#[cfg(test)]
mod tests;
