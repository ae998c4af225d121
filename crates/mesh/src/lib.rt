// The lent tables as those who walk them see them: entries and their words, and the polygons one at a time and by runs of one kind.
#![tactic(auto)]

pub mod columns;
pub mod lent;
pub mod polygons;
