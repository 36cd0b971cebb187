mod allocated;
mod blocks;
mod copies;
mod fuses;
mod handles;
mod owners;
mod support;
