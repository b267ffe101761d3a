mod ends;
mod limits;
mod worked;
