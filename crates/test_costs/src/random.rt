//! Long random lists of calls of both maps, each result compared with that of a plain list that is searched.
mod calls;
mod lengths;
mod many;
mod ordered;
mod plain;
mod refused;
mod runs;
