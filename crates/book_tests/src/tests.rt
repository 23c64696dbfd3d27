mod agents;
mod calls;
mod lines;
mod rows;
mod save_points;
mod steps;
