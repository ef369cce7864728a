//! Digests of made images, and pairs of images that are compared.
mod alike;
mod digests;
mod images;
mod native_zero;
