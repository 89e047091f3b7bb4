//! Rows of the difference of two maps: each case of a few keys, what it costs, and what `apply` leaves if memory is
//! refused.
mod applied;
mod cases;
mod counts;
mod held;
mod refused;
mod rows;
