//! Memory units with programs run on them.

mod desk_runs;
mod desks;
mod gates;
mod logged_runs;
mod refused;
mod runs;
