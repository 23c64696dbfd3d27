mod json;
mod lines;
mod places;
mod texts;
mod turns;
mod wants;
