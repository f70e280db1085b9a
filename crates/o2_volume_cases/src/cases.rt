// What the definitions accept and what they refuse, each case the contract of a function that does nothing.
pub mod directory_checks;
pub mod sharing_checks;
pub mod volumes;
