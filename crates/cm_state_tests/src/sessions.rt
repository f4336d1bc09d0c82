// Sessions by example.
mod addresses;
mod again;
mod fields;
mod joins;
mod lines;
mod numbers;
mod options;
mod ports;
mod prompts;
mod question;
mod rows;
mod run;
mod said;
mod state;
