mod desks;
mod ends;
mod fakes;
mod forms;
mod jobs;
mod refused_words;
mod runs;
