//! Facts about the platforms of a list of headers, for the crates above.
ghost use Rattle.std.specs.Prelude.{◌≡◌, List, [], ◌∷◌, ◌++◌, length};
ghost use Rattle.igvm_headers.specs.declared.header.Header.{Header};
ghost use Rattle.platform_masks.specs.Platforms.{platform_of, platforms_of};

/// A law, and no code: a header behind others adds at most its own platform, under the next number.
pub fn platforms_of_more()
    ensures none { platforms_of [] ≡ [] }
    ensures more { (hs : List Header) (h : Header)
        → platforms_of (hs ++ h ∷ []) ≡ platforms_of hs ++ platform_of (length (platforms_of hs)) h }
{}
