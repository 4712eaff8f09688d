// A listing that was asked for: its plan, arithmetic and shuffler.
use levels::choice::AnyRing;
use listing_text::request::Request;
use shuffle::any::AnyShuffler;
use strip::cell::Strip;

#[derive(Clone, Copy)]
pub struct Listing {
    pub request: Request,
    pub strip: Strip<AnyRing, AnyShuffler>,
}
