//! Halls, clusters and services whose replies and histories are known.

mod applying;
mod balance;
mod calling;
mod cluster;
mod hall;
mod inquiry;
mod long;
mod making;
mod packing;
mod service;
mod turn;
