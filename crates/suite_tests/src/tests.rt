mod bench;
mod layers;
mod numbers;
