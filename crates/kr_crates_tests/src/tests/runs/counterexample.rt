//! Scripts that failed cases give, compared with those that an independent program gave for the same tables.
mod ample;
mod bundled;
mod by_scenes;
mod entries;
mod neighbours;
mod none_known;
mod tables;
mod telling;
mod updating;
