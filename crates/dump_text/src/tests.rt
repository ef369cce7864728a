//! Listings as a script of Python writes them, from images that it wrote with `struct`.
use super::print_image;
use igvm_headers::{Failed, crc_begin, crc_end, crc_more};
use igvm_image::open_image;
use igvm_outside::MemSink;
use std::alloc::{AllocError, Global};
use std::process::Abort;
use std::test::Fail;

/// A header with its padding, and its line.
struct Row {
    bytes: &'static [u8],
    line: &'static str,
}

/// An image, and its listing. Behind its headers stand so many pages of zeros.
struct Example {
    data: u32,
    first: &'static str,
    headers: &'static [Row],
}

/// One page of zeros.
const ONE_PAGE: Example = Example {
    data: 0,
    first: "igvm version 1 section 24 56 total 80 headers 2\n",
    headers: &[
        Row {
            bytes: b"\x01\0\0\0\x10\0\0\0\x01\0\0\0\0\x02\x01\0\0\0\0\0\0\0\0\0",
            line: "0 at 24 platform 0 mask 00000001 kind snp vtl 0 version 1 shared 00000000000\
            00000\n",
        },
        Row {
            bytes: b"\x02\x03\0\0\x18\0\0\0\0\x10\0\0\0\0\0\0\x01\0\0\0\0\0\0\0\0\0\0\0\0\0\0\
            \0",
            line: "1 at 48 page gpa 0000000000001000 mask 00000001 from 0 size 4096 measured no\
            rmal\n",
        },
    ],
};

/// A header that is carried, of a length that is padded.
const CARRIED: Example = Example {
    data: 0,
    first: "igvm version 1 section 24 40 total 64 headers 2\n",
    headers: &[
        Row {
            bytes: b"\x01\0\0\0\x10\0\0\0\x01\0\0\0\0\x02\x01\0\0\0\0\0\0\0\0\0",
            line: "0 at 24 platform 0 mask 00000001 kind snp vtl 0 version 1 shared 00000000000\
            00000\n",
        },
        Row {
            bytes: b"\x99\x03\0\x80\x04\0\0\0\x01\x02\x03\x04\0\0\0\0",
            line: "1 at 48 carried kind 80000399 length 4\n",
        },
    ],
};

/// Each kind of header, with numbers at their limits.
const EACH_KIND: Example = Example {
    data: 1,
    first: "igvm version 1 section 24 1592 total 5712 headers 40\n",
    headers: &[
        Row {
            bytes: b"\xff\xff\xff\xff\0\0\0\0",
            line: "0 at 24 carried kind ffffffff length 0\n",
        },
        Row {
            bytes: b"\x01\0\0\0\x10\0\0\0\x01\0\0\0\0\0\x01\0\0\0\0\0\0\0\0\0",
            line: "1 at 32 platform 0 mask 00000001 kind native vtl 0 version 1 shared 00000000\
            00000000\n",
        },
        Row {
            bytes: b"\x01\0\0\0\x10\0\0\0\x02\0\0\0\0\x01\x01\0\0\0\0\0\0\0\0\0",
            line: "2 at 56 platform 1 mask 00000002 kind vsm vtl 0 version 1 shared 00000000000\
            00000\n",
        },
        Row {
            bytes: b"\x99\x03\0\x80\x04\0\0\0\x01\x02\x03\x04\0\0\0\0",
            line: "3 at 80 carried kind 80000399 length 4\n",
        },
        Row {
            bytes: b"\x01\0\0\0\x10\0\0\0\0\0\0\x80\xff\x02\xff\xff\xff\xff\xff\xff\xff\xff\xff\
            \xff",
            line: "4 at 96 platform 2 mask 80000000 kind snp vtl 255 version 65535 shared fffff\
            fffffffffff\n",
        },
        Row {
            bytes: b"\x01\0\0\0\x10\0\0\0\x04\0\0\0\0\x03\x01\0\0\0\0\0\0\0\0\0",
            line: "5 at 120 platform 3 mask 00000004 kind tdx vtl 0 version 1 shared 0000000000\
            000000\n",
        },
        Row {
            bytes: b"\x01\0\0\0\x10\0\0\0\x08\0\0\0\0\x04\x01\0\0\0\0\0\0\0\0\0",
            line: "6 at 144 platform 4 mask 00000008 kind sev vtl 0 version 1 shared 0000000000\
            000000\n",
        },
        Row {
            bytes: b"\x01\0\0\0\x10\0\0\0\x10\0\0\0\0\x05\x01\0\0\0\0\0\0\0\0\0",
            line: "7 at 168 platform 5 mask 00000010 kind sev_es vtl 0 version 1 shared 0000000\
            000000000\n",
        },
        Row {
            bytes: b"\x01\x01\0\0\x10\0\0\0\xff\xff\xff\xff\xff\xff\xff\xff\xff\xff\xff\xff\xff\
            \xff\xff\xff",
            line: "8 at 192 policy mask ffffffff value ffffffffffffffff\n",
        },
        Row {
            bytes: b"\x01\x01\0\0\x10\0\0\0\0\0\x03\0\0\0\0\0\x01\0\0\0\0\0\0\0",
            line: "9 at 216 policy mask 00000001 value 0000000000030000\n",
        },
        Row {
            bytes: b"\x02\x01\0\0\x10\0\0\0\x07\x07\x07\x07\x07\x07\x07\x07\x07\x07\x07\x07\x07\
            \x07\x07\x07",
            line: "10 at 240 carried kind 00000102 length 16\n",
        },
        Row {
            bytes: b"\x03\x01\0\0\0\0\0\0",
            line: "11 at 264 carried kind 00000103 length 0\n",
        },
        Row {
            bytes: b"\x01\x03\0\0\x10\0\0\0\0\0\0\x04\0\0\0\0\xff\xff\xff\xff\0\0\0\0",
            line: "12 at 272 area 4294967295 bytes 67108864 from 0\n",
        },
        Row {
            bytes: b"\x01\x03\0\0\x10\0\0\0\0\x10\0\0\0\0\0\0\0\0\0\0\x18\0\0\0",
            line: "13 at 296 area 0 bytes 4096 from 24\n",
        },
        Row {
            bytes: b"\x02\x03\0\0\x18\0\0\0\0\xf0\xff\xff\xff\xff\xff\xff\xff\xff\xff\xff\0\0\
            \0\0\0\0\0\0\0\0\0\0",
            line: "14 at 320 page gpa fffffffffffff000 mask ffffffff from 0 size 4096 measured \
            normal\n",
        },
        Row {
            bytes: b"\x02\x03\0\0\x18\0\0\0\0\0\xe0\xff\xff\xff\xff\xff\0\0\0\0\0\0\0\0\x03\0\
            \0\0\0\0\0\0",
            line: "15 at 352 page gpa ffffffffffe00000 mask 00000000 from 0 size 2097152 unmeas\
            ured normal\n",
        },
        Row {
            bytes: b"\x02\x03\0\0\x18\0\0\0\0\x10\0\0\0\0\0\0\x01\0\0\0\x01\0\0\0\x02\0\0\0\0\
            \0\0\0",
            line: "16 at 384 page gpa 0000000000001000 mask 00000001 from 1 size 4096 unmeasure\
            d normal\n",
        },
        Row {
            bytes: b"\x02\x03\0\0\x18\0\0\0\0\0\0\0\0\0\0\0\x01\0\0\0\0\0\0\0\0\0\0\0\x01\0\0\
            \0",
            line: "17 at 416 page gpa 0000000000000000 mask 00000001 from 0 size 4096 measured \
            secrets\n",
        },
        Row {
            bytes: b"\x02\x03\0\0\x18\0\0\0\0\x20\0\0\0\0\0\0\x01\0\0\0\0\0\0\0\x02\0\0\0\x02\
            \0\0\0",
            line: "18 at 448 page gpa 0000000000002000 mask 00000001 from 0 size 4096 unmeasure\
            d cpuid\n",
        },
        Row {
            bytes: b"\x02\x03\0\0\x18\0\0\0\0\x90\x78\x56\x34\x12\0\0\xef\xcd\xab\x89\0\0\0\0\
            \0\0\0\0\x03\0\0\0",
            line: "19 at 480 page gpa 0000123456789000 mask 89abcdef from 0 size 4096 measured \
            cpuid_xf\n",
        },
        Row {
            bytes: b"\x03\x03\0\0\x10\0\0\0\0\0\0\xfc\xff\xff\xff\xff\xff\xff\xff\xff\xff\xff\
            \xff\xff",
            line: "20 at 512 insert gpa fffffffffc000000 mask ffffffff area 4294967295\n",
        },
        Row {
            bytes: b"\x03\x03\0\0\x10\0\0\0\0\0\0\0\0\0\0\0\0\0\0\0\0\0\0\0",
            line: "21 at 536 insert gpa 0000000000000000 mask 00000000 area 0\n",
        },
        Row {
            bytes: b"\x07\x03\0\0\x08\0\0\0\0\0\0\0\x07\x03\0\0",
            line: "22 at 560 param vp_count area 0 offset 775\n",
        },
        Row {
            bytes: b"\x08\x03\0\0\x08\0\0\0\0\0\0\0\x08\x03\0\0",
            line: "23 at 576 param srat area 0 offset 776\n",
        },
        Row {
            bytes: b"\x09\x03\0\0\x08\0\0\0\0\0\0\0\x09\x03\0\0",
            line: "24 at 592 param madt area 0 offset 777\n",
        },
        Row {
            bytes: b"\x0a\x03\0\0\x08\0\0\0\0\0\0\0\x0a\x03\0\0",
            line: "25 at 608 param mmio_ranges area 0 offset 778\n",
        },
        Row {
            bytes: b"\x0c\x03\0\0\x08\0\0\0\0\0\0\0\x0c\x03\0\0",
            line: "26 at 624 param memory_map area 0 offset 780\n",
        },
        Row {
            bytes: b"\x0e\x03\0\0\x08\0\0\0\0\0\0\0\x0e\x03\0\0",
            line: "27 at 640 param command_line area 0 offset 782\n",
        },
        Row {
            bytes: b"\x0f\x03\0\0\x08\0\0\0\0\0\0\0\x0f\x03\0\0",
            line: "28 at 656 param slit area 0 offset 783\n",
        },
        Row {
            bytes: b"\x10\x03\0\0\x08\0\0\0\0\0\0\0\x10\x03\0\0",
            line: "29 at 672 param pptt area 0 offset 784\n",
        },
        Row {
            bytes: b"\x12\x03\0\0\x08\0\0\0\0\0\0\0\x12\x03\0\0",
            line: "30 at 688 param device_tree area 0 offset 786\n",
        },
        Row {
            bytes: b"\x13\x03\0\0\x08\0\0\0\0\0\0\0\xff\xff\xff\xff",
            line: "31 at 704 param environment_info area 0 offset 4294967295\n",
        },
        Row {
            bytes: b"\x04\x03\0\0\x14\0\0\0\0\xf0\xff\xff\xff\xff\xff\xff\xff\xff\xff\xff\0\x10\
            \0\0\xff\xff\0\0\0\0\0\0",
            line: "32 at 720 context gpa fffffffffffff000 mask ffffffff from 4096 vp 65535\n",
        },
        Row {
            bytes: b"\x04\x03\0\0\x18\0\0\0\0\x10\0\0\0\0\0\0\x01\0\0\0\0\0\0\0\0\0\xff\xff\xff\
            \xff\xff\xff",
            line: "33 at 752 context gpa 0000000000001000 mask 00000001 from 0 vp 0\n",
        },
        Row {
            bytes: b"\x05\x03\0\0\x18\0\0\0\0\0\0\0\0\0\0\0\0\0\0\0\0\0\0\0\0\0\0\0\0\0\0\0",
            line: "34 at 784 required gpa 0000000000000000 mask 00000000 bytes 0 flags 00000000\n",
        },
        Row {
            bytes: b"\x05\x03\0\0\x18\0\0\0\xff\xff\xff\xff\xff\xff\xff\xff\xff\xff\xff\xff\xff\
            \xff\xff\xff\xff\xff\xff\xff\xff\xff\xff\xff",
            line: "35 at 816 required gpa ffffffffffffffff mask ffffffff bytes 4294967295 flag\
            s ffffffff\n",
        },
        Row {
            bytes: b"\x0d\x03\0\0\x10\0\0\0\xff\xff\xff\xff\xff\xff\xff\xff\xff\xff\xff\xff\xff\
            \xff\xff\xff",
            line: "36 at 848 error-range gpa ffffffffffffffff mask ffffffff bytes 4294967295\n",
        },
        Row {
            bytes: b"\x0d\x03\0\0\x10\0\0\0\0\0\0\0\0\0\0\0\0\0\0\0\0\0\0\0",
            line: "37 at 872 error-range gpa 0000000000000000 mask 00000000 bytes 0\n",
        },
        Row {
            bytes: b"\x11\x03\0\0\x05\0\0\0\x05\x05\x05\x05\x05\0\0\0",
            line: "38 at 896 carried kind 00000311 length 5\n",
        },
        Row {
            bytes: b"\x0b\x03\0\0\xb8\x02\0\0\xff\xff\xff\xff\xff\x01\x02\x03\0\x01\x02\x03\x04\
            \x05\x06\x07\x08\x09\x0a\x0b\x0c\x0d\x0e\x0f\x10\x11\x12\x13\x14\x15\x16\
            \x17\x18\x19\x1a\x1b\x1c\x1d\x1e\x1f\x20\x21\x22\x23\x24\x25\x26\x27\x28\
            \x29\x2a\x2b\x2c\x2d\x2e\x2f\x70\x71\x72\x73\x74\x75\x76\x77\x78\x79\x7a\
            \x7b\x7c\x7d\x7e\x7f\xf0\xf1\xf2\xf3\xf4\xf5\xf6\xf7\xf8\xf9\xfa\xfb\xfc\
            \xfd\xfe\xff\xff\xff\xff\xff\xfe\xff\xff\xff\xfd\xff\xff\xff\xfc\xff\xff\
            \xff\xee\xee\xee\xee\xee\xee\xee\xee\xee\xee\xee\xee\xee\xee\xee\xee\xee\
            \xee\xee\xee\xee\xee\xee\xee\xee\xee\xee\xee\xee\xee\xee\xee\xee\xee\xee\
            \xee\xee\xee\xee\xee\xee\xee\xee\xee\xee\xee\xee\xee\xee\xee\xee\xee\xee\
            \xee\xee\xee\xee\xee\xee\xee\xee\xee\xee\xee\xee\xee\xee\xee\xee\xee\xee\
            \xee\xee\xee\xee\xee\xee\xee\xee\xee\xee\xee\xee\xee\xee\xee\xee\xee\xee\
            \xee\xee\xee\xee\xee\xee\xee\xee\xee\xee\xee\xee\xee\xee\xee\xee\xee\xee\
            \xee\xee\xee\xee\xee\xee\xee\xee\xee\xee\xee\xee\xee\xee\xee\xee\xee\xee\
            \xee\xee\xee\xee\xee\xee\xee\xee\xee\xee\xee\xee\xee\xee\xee\xee\xee\xee\
            \xee\xee\xee\xee\xee\xee\xee\xee\xee\xee\xee\xee\xee\xee\xee\xee\xee\xee\
            \xee\xee\xee\xee\xee\xee\xee\xee\xee\xee\xee\xee\xee\xee\xee\xee\xee\xee\
            \xee\xee\xee\xee\xee\xee\xee\xee\xee\xee\xee\xee\xee\xee\xee\xee\xee\xee\
            \xee\xee\xee\xee\xee\xee\xee\xee\xee\xee\xee\xee\xee\xee\xee\xee\xee\xee\
            \xee\xee\xee\xee\xee\xee\xee\xee\xee\xee\xee\xee\xee\xee\xee\xee\xee\xee\
            \xee\xee\xee\xee\xee\xee\xee\xee\xee\xee\xee\xee\xee\xee\xee\xee\xee\xee\
            \xee\xee\xee\xee\xee\xee\xee\xee\xee\xee\xee\xee\xee\xee\xee\xee\xee\xee\
            \xee\xee\xee\xee\xee\xee\xee\xee\xee\xee\xee\xee\xee\xee\xee\xee\xee\xee\
            \xee\xee\xee\xee\xee\xee\xee\xee\xee\xee\xee\xee\xee\xee\xee\xee\xee\xee\
            \xee\xee\xee\xee\xee\xee\xee\xee\xee\xee\xee\xee\xee\xee\xee\xee\xee\xee\
            \xee\xee\xee\xee\xee\xee\xee\xee\xee\xee\xee\xee\xee\xee\xee\xee\xee\xee\
            \xee\xee\xee\xee\xee\xee\xee\xee\xee\xee\xee\xee\xee\xee\xee\xee\xee\xee\
            \xee\xee\xee\xee\xee\xee\xee\xee\xee\xee\xee\xee\xee\xee\xee\xee\xee\xee\
            \xee\xee\xee\xee\xee\xee\xee\xee\xee\xee\xee\xee\xee\xee\xee\xee\xee\xee\
            \xee\xee\xee\xee\xee\xee\xee\xee\xee\xee\xee\xee\xee\xee\xee\xee\xee\xee\
            \xee\xee\xee\xee\xee\xee\xee\xee\xee\xee\xee\xee\xee\xee\xee\xee\xee\xee\
            \xee\xee\xee\xee\xee\xee\xee\xee\xee\xee\xee\xee\xee\xee\xee\xee\xee\xee\
            \xee\xee\xee\xee\xee\xee\xee\xee\xee\xee\xee\xee\xee\xee\xee\xee\xee\xee\
            \xee\xee\xee\xee\xee\xee\xee\xee\xee\xee\xee\xee\xee\xee\xee\xee\xee\xee\
            \xee\xee\xee\xee\xee\xee\xee\xee\xee\xee\xee\xee\xee\xee\xee\xee\xee\xee\
            \xee\xee\xee\xee\xee\xee\xee\xee\xee\xee\xee\xee\xee\xee\xee\xee\xee\xee\
            \xee\xee\xee\xee\xee\xee\xee\xee\xee\xee\xee\xee\xee\xee\xee\xee\xee\xee\
            \xee\xee\xee\xee\xee\xee\xee\xee\xee\xee\xee\xee\xee\xee\xee\xee\xee\xee\
            \xee\xee\xee\xee\xee\xee\xee\xee\xee\xee\xee\xee\xee\xee\xee\xee\xee\xee\
            \xee\xee\xee\xee\xee\xee\xee\xee\xee\xee\xee\xee\xee\xee\xee\xee\xee",
            line: "39 at 912 id-block mask ffffffff author 255 ld 000102030405060708090a0b0c0d0\
            e0f101112131415161718191a1b1c1d1e1f202122232425262728292a2b2c2d2e2f family 7\
            07172737475767778797a7b7c7d7e7f image f0f1f2f3f4f5f6f7f8f9fafbfcfdfeff versi\
            on 4294967295 svn 4294967294 algorithms 4294967293 4294967292\n",
        },
    ],
};

/// An image as it is used: platforms, areas with parameters, pages, secrets, a context.
const WHOLE: Example = Example {
    data: 10,
    first: "igvm version 1 section 24 656 total 41640 headers 24\n",
    headers: &[
        Row {
            bytes: b"\x01\0\0\0\x10\0\0\0\x01\0\0\0\x02\x02\x01\0\0\0\0\0\0\0\0\0",
            line: "0 at 24 platform 0 mask 00000001 kind snp vtl 2 version 1 shared 00000000000\
            00000\n",
        },
        Row {
            bytes: b"\x01\0\0\0\x10\0\0\0\x02\0\0\0\0\x03\x01\0\0\0\0\0\0\0\0\0",
            line: "1 at 48 platform 1 mask 00000002 kind tdx vtl 0 version 1 shared 00000000000\
            00000\n",
        },
        Row {
            bytes: b"\x01\0\0\0\x10\0\0\0\x04\0\0\0\0\0\x01\0\0\0\0\0\0\0\0\0",
            line: "2 at 72 platform 2 mask 00000004 kind native vtl 0 version 1 shared 00000000\
            00000000\n",
        },
        Row {
            bytes: b"\x01\x01\0\0\x10\0\0\0\0\0\x03\0\0\0\0\0\x01\0\0\0\0\0\0\0",
            line: "3 at 96 policy mask 00000001 value 0000000000030000\n",
        },
        Row {
            bytes: b"\x01\x03\0\0\x10\0\0\0\0\x10\0\0\0\0\0\0\0\0\0\0\0\0\0\0",
            line: "4 at 120 area 0 bytes 4096 from 0\n",
        },
        Row {
            bytes: b"\x01\x03\0\0\x10\0\0\0\0\x10\0\0\0\0\0\0\x01\0\0\0\0\0\0\0",
            line: "5 at 144 area 1 bytes 4096 from 0\n",
        },
        Row {
            bytes: b"\x0c\x03\0\0\x08\0\0\0\0\0\0\0\0\0\0\0",
            line: "6 at 168 param memory_map area 0 offset 0\n",
        },
        Row {
            bytes: b"\x07\x03\0\0\x08\0\0\0\0\0\0\0\0\x08\0\0",
            line: "7 at 184 param vp_count area 0 offset 2048\n",
        },
        Row {
            bytes: b"\x0e\x03\0\0\x08\0\0\0\x01\0\0\0\0\0\0\0",
            line: "8 at 200 param command_line area 1 offset 0\n",
        },
        Row {
            bytes: b"\x05\x03\0\0\x18\0\0\0\0\0\0\0\0\0\0\0\x07\0\0\0\0\0\0\x01\0\0\0\0\0\0\0\
            \0",
            line: "9 at 216 required gpa 0000000000000000 mask 00000007 bytes 16777216 flags 00\
            000000\n",
        },
        Row {
            bytes: b"\x02\x03\0\0\x18\0\0\0\0\0\x01\0\0\0\0\0\x07\0\0\0\xa8\x02\0\0\0\0\0\0\0\
            \0\0\0",
            line: "10 at 248 page gpa 0000000000010000 mask 00000007 from 680 size 4096 measure\
            d normal\n",
        },
        Row {
            bytes: b"\x02\x03\0\0\x18\0\0\0\0\x10\x01\0\0\0\0\0\x07\0\0\0\xa8\x12\0\0\0\0\0\0\
            \0\0\0\0",
            line: "11 at 280 page gpa 0000000000011000 mask 00000007 from 4776 size 4096 measur\
            ed normal\n",
        },
        Row {
            bytes: b"\x02\x03\0\0\x18\0\0\0\0\x20\x01\0\0\0\0\0\x07\0\0\0\xa8\x22\0\0\0\0\0\0\
            \0\0\0\0",
            line: "12 at 312 page gpa 0000000000012000 mask 00000007 from 8872 size 4096 measur\
            ed normal\n",
        },
        Row {
            bytes: b"\x02\x03\0\0\x18\0\0\0\0\x30\x01\0\0\0\0\0\x07\0\0\0\xa8\x32\0\0\0\0\0\0\
            \0\0\0\0",
            line: "13 at 344 page gpa 0000000000013000 mask 00000007 from 12968 size 4096 measu\
            red normal\n",
        },
        Row {
            bytes: b"\x02\x03\0\0\x18\0\0\0\0\x40\x01\0\0\0\0\0\x07\0\0\0\xa8\x42\0\0\0\0\0\0\
            \0\0\0\0",
            line: "14 at 376 page gpa 0000000000014000 mask 00000007 from 17064 size 4096 measu\
            red normal\n",
        },
        Row {
            bytes: b"\x02\x03\0\0\x18\0\0\0\0\x50\x01\0\0\0\0\0\x07\0\0\0\xa8\x52\0\0\0\0\0\0\
            \0\0\0\0",
            line: "15 at 408 page gpa 0000000000015000 mask 00000007 from 21160 size 4096 measu\
            red normal\n",
        },
        Row {
            bytes: b"\x02\x03\0\0\x18\0\0\0\0\x60\x01\0\0\0\0\0\x07\0\0\0\xa8\x62\0\0\0\0\0\0\
            \0\0\0\0",
            line: "16 at 440 page gpa 0000000000016000 mask 00000007 from 25256 size 4096 measu\
            red normal\n",
        },
        Row {
            bytes: b"\x02\x03\0\0\x18\0\0\0\0\x70\x01\0\0\0\0\0\x07\0\0\0\xa8\x72\0\0\0\0\0\0\
            \0\0\0\0",
            line: "17 at 472 page gpa 0000000000017000 mask 00000007 from 29352 size 4096 measu\
            red normal\n",
        },
        Row {
            bytes: b"\x02\x03\0\0\x18\0\0\0\0\x80\x01\0\0\0\0\0\x07\0\0\0\xa8\x82\0\0\0\0\0\0\
            \0\0\0\0",
            line: "18 at 504 page gpa 0000000000018000 mask 00000007 from 33448 size 4096 measu\
            red normal\n",
        },
        Row {
            bytes: b"\x02\x03\0\0\x18\0\0\0\0\xe0\x09\0\0\0\0\0\x01\0\0\0\0\0\0\0\0\0\0\0\x01\
            \0\0\0",
            line: "19 at 536 page gpa 000000000009e000 mask 00000001 from 0 size 4096 measured \
            secrets\n",
        },
        Row {
            bytes: b"\x02\x03\0\0\x18\0\0\0\0\xf0\x09\0\0\0\0\0\x01\0\0\0\0\0\0\0\0\0\0\0\x02\
            \0\0\0",
            line: "20 at 568 page gpa 000000000009f000 mask 00000001 from 0 size 4096 measured \
            cpuid\n",
        },
        Row {
            bytes: b"\x03\x03\0\0\x10\0\0\0\0\xa0\x01\0\0\0\0\0\x07\0\0\0\0\0\0\0",
            line: "21 at 600 insert gpa 000000000001a000 mask 00000007 area 0\n",
        },
        Row {
            bytes: b"\x03\x03\0\0\x10\0\0\0\0\xb0\x01\0\0\0\0\0\x07\0\0\0\x01\0\0\0",
            line: "22 at 624 insert gpa 000000000001b000 mask 00000007 area 1\n",
        },
        Row {
            bytes: b"\x04\x03\0\0\x14\0\0\0\0\xf0\xff\xff\xff\xff\0\0\x01\0\0\0\xa8\x92\0\0\0\
            \0\0\0\0\0\0\0",
            line: "23 at 648 context gpa 0000fffffffff000 mask 00000001 from 37544 vp 0\n",
        },
    ],
};

impl Example {
    fn section(&self, alloc: Global) -> Result<Vec<u8>, AllocError> {
        let mut section = Vec::new(alloc);
        for row in self.headers {
            section.extend_from_slice(row.bytes)?;
        }
        Ok(section)
    }

    fn file(&self, alloc: Global) -> Result<Vec<u8>, AllocError> {
        let mut file = image(alloc, &self.section(alloc)?, self.data.saturating_mul(4096))?;
        for _ in 0..self.data {
            file.extend_from_slice(&[0; 4096])?;
        }
        Ok(file)
    }

    fn listing(&self, alloc: Global) -> Result<String, AllocError> {
        let mut text = String::from_str(alloc, self.first)?;
        for row in self.headers {
            text.push_str(row.line)?;
        }
        Ok(text)
    }
}

/// A file of version 2 with one platform, and its listing.
const VERSION_2: &[u8] =
    b"IGVM\x02\0\0\0\x20\0\0\0\x18\0\0\0\x38\0\0\0\x3f\x26\x3a\xfa\0\0\0\0\0\x10\0\0\
    \x01\0\0\0\x10\0\0\0\x01\0\0\0\0\x02\x01\0\0\0\0\0\0\0\0\0";

const VERSION_2_LISTING: &str =
    "igvm version 2 section 32 24 total 56 headers 1 architecture x64 page 4096\n\
    0 at 32 platform 0 mask 00000001 kind snp vtl 0 version 1 shared 0000000000000000\n";

/// The fixed header of version 1 and a section, where so many bytes of data follow.
fn image(alloc: Global, section: &[u8], data: u32) -> Result<Vec<u8>, AllocError> {
    let size = u32::try_from(section.len()).unwrap_or(0);
    let total = size.saturating_add(24).saturating_add(data);
    let mut file = Vec::new(alloc);
    file.extend_from_slice(b"IGVM\x01\0\0\0\x18\0\0\0")?;
    file.extend_from_slice(&size.to_le_bytes())?;
    file.extend_from_slice(&total.to_le_bytes())?;
    let state = crc_more(crc_more(crc_begin(), &file), &[0; 4]);
    file.extend_from_slice(&crc_end(crc_more(state, section)).to_le_bytes())?;
    file.extend_from_slice(section)?;
    Ok(file)
}

/// Prints a file that is accepted.
fn print(rt: &impl Abort, file: &[u8], out: &mut MemSink) -> Result<(), Failed> {
    assert!(rt; file.len() <= 536_870_912);
    match open_image(file) {
        Ok(view) => print_image(&view, out),
        Err(fault) => {
            assert!(rt; false, "{fault:?}");
            Err(Failed)
        }
    }
}

#[test]
fn lists_images(rt: HostRuntime) -> Result<(), Fail> {
    for example in [&ONE_PAGE, &CARRIED, &EACH_KIND, &WHOLE] {
        let file = example.file(rt.alloc())?;
        let mut out = MemSink::new(rt.alloc());
        assert_eq!(rt; print(&rt, &file, &mut out), Ok(()));
        let want = example.listing(rt.alloc())?;
        assert_eq!(rt; out.bytes(), want.as_bytes());
    }
    Ok(())
}

#[test]
fn lists_version_2(rt: HostRuntime) -> Result<(), Fail> {
    let mut out = MemSink::new(rt.alloc());
    assert_eq!(rt; print(&rt, VERSION_2, &mut out), Ok(()));
    assert_eq!(rt; out.bytes(), VERSION_2_LISTING.as_bytes());
    Ok(())
}

/// The output takes 8 bytes a call, so what stands there when a call fails is known to the byte.
#[test]
fn puts_a_front_where_the_output_fails(rt: HostRuntime) -> Result<(), Fail> {
    let file = WHOLE.file(rt.alloc())?;
    let want = WHOLE.listing(rt.alloc())?;
    let calls = want.len().div_ceil(8);
    for call in 1..=calls {
        let mut out = MemSink::new(rt.alloc());
        out.set_piece(8);
        out.fail_call(call as u64)?;
        assert_eq!(rt; print(&rt, &file, &mut out), Err(Failed));
        assert_eq!(rt; Some(out.bytes()), want.as_bytes().get(..8 * (call - 1)));
    }
    let mut out = MemSink::new(rt.alloc());
    out.set_piece(8);
    out.fail_call(calls as u64 + 1)?;
    assert_eq!(rt; print(&rt, &file, &mut out), Ok(()));

    let mut out = MemSink::new(rt.alloc());
    out.set_piece(8);
    out.fail_call(2)?;
    let file = ONE_PAGE.file(rt.alloc())?;
    assert_eq!(rt; print(&rt, &file, &mut out), Err(Failed));
    assert_eq!(rt; out.bytes(), b"igvm ver".as_slice());
    Ok(())
}

/// One platform, and so many headers of 8 bytes that are carried.
fn with_carried(alloc: Global, count: u32) -> Result<Vec<u8>, AllocError> {
    let mut section = CARRIED.headers[0].bytes.to_vec(alloc)?;
    for _ in 0..count {
        section.extend_from_slice(b"\x99\x03\0\x80\0\0\0\0")?;
    }
    image(alloc, &section, 0)
}

/// A text of many times the bytes that are gathered, and each of its puts failing.
#[test]
fn lists_many_headers(rt: HostRuntime) -> Result<(), Fail> {
    let file = with_carried(rt.alloc(), 4096)?;
    let mut out = MemSink::new(rt.alloc());
    assert_eq!(rt; print(&rt, &file, &mut out), Ok(()));
    let text = out.bytes();
    assert_eq!(rt; text.len(), 181_982);
    assert_eq!(rt; text.iter().filter(|byte| **byte == b'\n').count(), 4098);
    let last = b"\n4096 at 32808 carried kind 80000399 length 0\n";
    assert!(rt; text.ends_with(last));

    for call in 1..=12 {
        let mut failing = MemSink::new(rt.alloc());
        failing.fail_call(call)?;
        assert_eq!(rt; print(&rt, &file, &mut failing), Err(Failed));
        assert!(rt; text.starts_with(failing.bytes()));
        assert!(rt; failing.bytes().len() < text.len());
    }
    Ok(())
}
