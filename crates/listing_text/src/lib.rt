// The text of a listing put into a lent output from a place on: numbers, labels, lines of counts and of polygons. Nothing but that output is touched. Each
// function answers the place after what it put.
#![tactic(auto)]

pub mod numbers;
pub mod polygons;
