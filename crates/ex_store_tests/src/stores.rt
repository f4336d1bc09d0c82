// Stores that are changed and asked.

mod appends;
mod copies;
mod definitions;
mod directories;
mod drafts;
mod families;
mod images;
mod limits;
mod marks;
mod names;
mod neighbours;
mod prints;
mod refusals;
mod renames;
mod retention;
mod searches;
