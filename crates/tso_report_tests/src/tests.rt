//! Memory units with programs run on them, and what is written of their records and of campaigns.

mod reports;
mod units;
