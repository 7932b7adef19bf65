mod serving;
mod sessions;
mod status;
