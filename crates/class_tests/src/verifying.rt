//! Classes that are verified, and what is wrong first with others: each instruction, each rule of frames, of assignability
//! and of calls, taken and refused (JVMS SE 7, 4.10.1).

use crate::rows::{bytes_of, word};
use class_file::parse;
use class_verifier::{Refused, Verified, VerifyFault, verify};
use std::alloc::{AllocError, Global};
use std::test::Fail;

/// A class before its count of methods, in hexadecimal: it is `erl/m/a`, and its pool has what the rows name.
const HEAD: &str = "\
cafebabe00000032004701000765726c2f6d2f610700010100106a6176612f6c616e672f4f626a656374070003010004665f5f3001000e\
284c65726c2f50726f633b492949010004436f646501000d537461636b4d61705461626c65030001117008000505000000000000000701\
000665726c2f527407000d010007696e746567657201000d284a294c65726c2f5465726d3b0c000f00100a000e00110100036c69740100\
1e284c6a6176612f6c616e672f537472696e673b294c65726c2f5465726d3b0c001300140a000e0015010004636f6e73010020284c6572\
6c2f5465726d3b4c65726c2f5465726d3b294c65726c2f5465726d3b0c001700180a000e0019010005656e74657201000d284c65726c2f\
50726f633b29560c001b001c0a000e001d0100046d6f726501000d284c65726c2f50726f633b29490c001f00200a000e00210100046b65\
6570010017284c65726c2f50726f633b4c65726c2f5465726d3b29560c002300240a000e0025010006726573756c74010016284c65726c\
2f50726f633b294c65726c2f5465726d3b0c002700280a000e002901000a74616b655f7472616365010018284c65726c2f50726f633b49\
294c65726c2f54726163653b0c002b002c0a000e002d0c000500060a0002002f0700010a0031002f010004665f5f310c003300060a0002\
00340c000f00140a000e00360a0004002f0a000e002f0a000200110c000500100a0002003b01000865726c2f5465726d07003d01000865\
726c2f50726f6307003f01000965726c2f54726163650700410100106a6176612f6c616e672f537472696e67070043010003782f590700\
4500210002000400000000";

/// Methods of the class, all of which are `f__0`: the depth of its stack, its count of locals, its code, its map or `-`,
/// and what is answered: `ok`, `map` for a bad one, or the offset of what is not typed or not linked. Behind that stands
/// what the code is, with the indices of the pool by what they are of, and at which offsets which frames stand.
const ROWS: &str = "\
# Constants, loads and returns.
1 2 1bac - ok iload_1; ireturn
1 2 2aac - typed:1 aload_0; ireturn
1 2 1aac - typed:0 iload_0; ireturn
1 2 2bac - typed:0 aload_1; ireturn
1 2 02ac - ok iconst_m1; ireturn
1 2 08ac - ok iconst_5; ireturn
1 2 1080ac - ok bipush -128; ireturn
1 2 118000ac - ok sipush -32768; ireturn
1 2 1209ac - ok ldc int; ireturn
1 2 120aac - typed:2 ldc str; ireturn
1 2 130009ac - ok ldc_w int; ireturn
1 2 13000aac - typed:3 ldc_w str; ireturn
2 2 14000bac - typed:3 ldc2_w long; ireturn
1 2 01ac - typed:1 aconst_null; ireturn
1 3 1cac - typed:0 iload_2; ireturn
1 2 1cac - typed:0 iload_2; ireturn
1 2 2c1bac - typed:0 aload_2; iload_1; ireturn
1 2 1501ac - ok iload 1; ireturn
1 2 15c8ac - typed:0 iload 200; ireturn
1 2 c4150001ac - ok wide iload 1; ireturn
1 2 c415ffffac - typed:0 wide iload 65535; ireturn
2 2 1900c41900001bac - typed:6 aload 0; wide aload 0; iload_1; ireturn
3 2 1900c41900001bac - ok aload 0; wide aload 0; iload_1; ireturn
0 2 ac - typed:0 ireturn
# The depth of the stack: a Long takes two places.
0 2 1bac - typed:0 iload_1; ireturn
1 2 1b1bac - typed:1 iload_1; iload_1; ireturn
1 2 14000b1bac - typed:0 ldc2_w long; iload_1; ireturn
2 2 14000b1bac - typed:3 ldc2_w long; iload_1; ireturn
3 2 14000b1bac - ok ldc2_w long; iload_1; ireturn
1 2 2ab80022ac - ok aload_0; invoke more; ireturn
1 2 1b59ac - typed:1 iload_1; dup; ireturn
# Fewer than two locals are told at offset 0, and before a method that is missing; a bad map before that.
1 1 03ac - typed:0 iconst_0; ireturn
1 0 03ac - typed:0 iconst_0; ireturn
1 1 b80035ac - typed:0 invoke absent; ireturn
1 1 03ac 0001ff00010002070040010000 map iconst_0; ireturn at 1:P I/
1 1 03ac 0001ff000100010700400000 typed:0 iconst_0; ireturn at 1:P/
# Stores.
1 2 033c1bac - ok iconst_0; istore_1; iload_1; ireturn
1 2 033b1aac - ok iconst_0; istore_0; iload_0; ireturn
1 2 2a4c1bac - typed:2 aload_0; astore_1; iload_1; ireturn
1 2 2a4c2b1bac - typed:3 aload_0; astore_1; aload_1; iload_1; ireturn
1 3 2a4d2c571bac - ok aload_0; astore_2; aload_2; pop; iload_1; ireturn
1 3 014d2c571bac - ok aconst_null; astore_2; aload_2; pop; iload_1; ireturn
1 2 2a3c1bac - typed:1 aload_0; istore_1; iload_1; ireturn
1 2 1b4c1bac - typed:1 iload_1; astore_1; iload_1; ireturn
1 2 1b3d1bac - typed:1 iload_1; istore_2; iload_1; ireturn
1 3 1b3d1cac - ok iload_1; istore_2; iload_2; ireturn
1 4 1b36031dac - ok iload_1; istore 3; iload_3; ireturn
1 4 2ac43a00032d571bac - ok aload_0; wide astore 3; aload_3; pop; iload_1; ireturn
1 4 2ac43a00041bac - typed:1 aload_0; wide astore 4; iload_1; ireturn
1 2 3c1bac - typed:0 istore_1; iload_1; ireturn
2 2 14000b3c1bac - typed:3 ldc2_w long; istore_1; iload_1; ireturn
2 2 14000b4c1bac - typed:3 ldc2_w long; astore_1; iload_1; ireturn
# Stores into a place of a Long: the first leaves a Top behind, the second one before. Only a frame puts it there.
1 4 1bac1b3ea700031bac 0002ff0002000307004001040000ff0004000307004001040000 typed:4 iload_1; ireturn; iload_1; istore_3; goto 3; iload_1; ireturn at 2:P I J/, 7:P I J/
1 4 1bac1b3ea700031bac 0002ff0002000307004001040000ff000400040700400100010000 ok iload_1; ireturn; iload_1; istore_3; goto 3; iload_1; ireturn at 2:P I J/, 7:P I Top I/
1 4 1bac1b3da700031bac 0002ff0002000307004001040000ff000400040700400101000000 ok iload_1; ireturn; iload_1; istore_2; goto 3; iload_1; ireturn at 2:P I J/, 7:P I I Top/
1 4 1bac1b3da700031bac 0002ff0002000307004001040000ff0004000307004001040000 typed:4 iload_1; ireturn; iload_1; istore_2; goto 3; iload_1; ireturn at 2:P I J/, 7:P I J/
1 4 1bac1b3d1dac 0001ff0002000307004001040000 typed:4 iload_1; ireturn; iload_1; istore_2; iload_3; ireturn at 2:P I J/
1 4 1bac1cac 0001ff0002000307004001040000 typed:2 iload_1; ireturn; iload_2; ireturn at 2:P I J/
1 4 1bac1dac 0001ff0002000307004001040000 typed:2 iload_1; ireturn; iload_3; ireturn at 2:P I J/
1 5 1bac1b3604a700031bac 0002ff0002000307004001040000ff000500040700400104010000 ok iload_1; ireturn; iload_1; istore 4; goto 3; iload_1; ireturn at 2:P I J/, 8:P I J I/
1 4 a700031bac 0001ff0003000307004001040000 typed:0 goto 3; iload_1; ireturn at 3:P I J/
1 4 1baca700031bac 0002ff0002000307004001040000ff0002000307004001000000 ok iload_1; ireturn; goto 3; iload_1; ireturn at 2:P I J/, 5:P I Top/
1 4 1baca700031bac 0002ff0002000307004001040000ff000200040700400100000000 ok iload_1; ireturn; goto 3; iload_1; ireturn at 2:P I J/, 5:P I Top Top/
# pop, dup and swap are for one place that is no Long.
1 2 2a571bac - ok aload_0; pop; iload_1; ireturn
1 2 01571bac - ok aconst_null; pop; iload_1; ireturn
1 2 571bac - typed:0 pop; iload_1; ireturn
2 2 14000b571bac - typed:3 ldc2_w long; pop; iload_1; ireturn
2 2 1b5960ac - ok iload_1; dup; iadd; ireturn
2 2 2a5957571bac - ok aload_0; dup; pop; pop; iload_1; ireturn
2 2 591bac - typed:0 dup; iload_1; ireturn
3 2 14000b591bac - typed:3 ldc2_w long; dup; iload_1; ireturn
2 2 1b2a5fac - ok iload_1; aload_0; swap; ireturn
2 2 2a1b5fac - typed:3 aload_0; iload_1; swap; ireturn
2 2 1b5fac - typed:1 iload_1; swap; ireturn
3 2 14000b1b5fac - typed:4 ldc2_w long; iload_1; swap; ireturn
3 2 1b14000b5fac - typed:4 iload_1; ldc2_w long; swap; ireturn
1 2 1ba70003571bac 0001ff0004000207004001000100 typed:4 iload_1; goto 3; pop; iload_1; ireturn at 4:P I/Top
2 2 1ba70003591bac 0001ff0004000207004001000100 typed:4 iload_1; goto 3; dup; iload_1; ireturn at 4:P I/Top
# Sums and differences of integers.
2 2 1b0860ac - ok iload_1; iconst_5; iadd; ireturn
2 2 1b0864ac - ok iload_1; iconst_5; isub; ireturn
2 2 1b0160ac - typed:2 iload_1; aconst_null; iadd; ireturn
2 2 011b60ac - typed:2 aconst_null; iload_1; iadd; ireturn
2 2 1b2a64ac - typed:2 iload_1; aload_0; isub; ireturn
2 2 2a1b64ac - typed:2 aload_0; iload_1; isub; ireturn
2 2 1b60ac - typed:1 iload_1; iadd; ireturn
2 2 64ac - typed:0 isub; ireturn
# Branches on one integer.
1 2 1b9900031bac 0001ff00040002070040010000 ok iload_1; ifeq 3; iload_1; ireturn at 4:P I/
1 2 2a9900031bac 0001ff00040002070040010000 typed:1 aload_0; ifeq 3; iload_1; ireturn at 4:P I/
1 2 1b9a00031bac 0001ff00040002070040010000 ok iload_1; ifne 3; iload_1; ireturn at 4:P I/
1 2 2a9a00031bac 0001ff00040002070040010000 typed:1 aload_0; ifne 3; iload_1; ireturn at 4:P I/
1 2 1b9b00031bac 0001ff00040002070040010000 ok iload_1; iflt 3; iload_1; ireturn at 4:P I/
1 2 2a9b00031bac 0001ff00040002070040010000 typed:1 aload_0; iflt 3; iload_1; ireturn at 4:P I/
1 2 1b9c00031bac 0001ff00040002070040010000 ok iload_1; ifge 3; iload_1; ireturn at 4:P I/
1 2 2a9c00031bac 0001ff00040002070040010000 typed:1 aload_0; ifge 3; iload_1; ireturn at 4:P I/
1 2 1b9d00031bac 0001ff00040002070040010000 ok iload_1; ifgt 3; iload_1; ireturn at 4:P I/
1 2 2a9d00031bac 0001ff00040002070040010000 typed:1 aload_0; ifgt 3; iload_1; ireturn at 4:P I/
1 2 1b9e00031bac 0001ff00040002070040010000 ok iload_1; ifle 3; iload_1; ireturn at 4:P I/
1 2 2a9e00031bac 0001ff00040002070040010000 typed:1 aload_0; ifle 3; iload_1; ireturn at 4:P I/
1 2 9900031bac 0001ff00030002070040010000 typed:0 ifeq 3; iload_1; ireturn at 3:P I/
# Branches on two integers.
2 2 1b1b9f00031bac 0001ff00050002070040010000 ok iload_1; iload_1; if_icmpeq 3; iload_1; ireturn at 5:P I/
2 2 1b2a9f00031bac 0001ff00050002070040010000 typed:2 iload_1; aload_0; if_icmpeq 3; iload_1; ireturn at 5:P I/
2 2 1b1ba000031bac 0001ff00050002070040010000 ok iload_1; iload_1; if_icmpne 3; iload_1; ireturn at 5:P I/
2 2 1b2aa000031bac 0001ff00050002070040010000 typed:2 iload_1; aload_0; if_icmpne 3; iload_1; ireturn at 5:P I/
2 2 1b1ba100031bac 0001ff00050002070040010000 ok iload_1; iload_1; if_icmplt 3; iload_1; ireturn at 5:P I/
2 2 1b2aa100031bac 0001ff00050002070040010000 typed:2 iload_1; aload_0; if_icmplt 3; iload_1; ireturn at 5:P I/
2 2 1b1ba200031bac 0001ff00050002070040010000 ok iload_1; iload_1; if_icmpge 3; iload_1; ireturn at 5:P I/
2 2 1b2aa200031bac 0001ff00050002070040010000 typed:2 iload_1; aload_0; if_icmpge 3; iload_1; ireturn at 5:P I/
2 2 1b1ba300031bac 0001ff00050002070040010000 ok iload_1; iload_1; if_icmpgt 3; iload_1; ireturn at 5:P I/
2 2 1b2aa300031bac 0001ff00050002070040010000 typed:2 iload_1; aload_0; if_icmpgt 3; iload_1; ireturn at 5:P I/
2 2 1b1ba400031bac 0001ff00050002070040010000 ok iload_1; iload_1; if_icmple 3; iload_1; ireturn at 5:P I/
2 2 1b2aa400031bac 0001ff00050002070040010000 typed:2 iload_1; aload_0; if_icmple 3; iload_1; ireturn at 5:P I/
2 2 011b9f00031bac 0001ff00050002070040010000 typed:2 aconst_null; iload_1; if_icmpeq 3; iload_1; ireturn at 5:P I/
2 2 1b9f00031bac 0001ff00040002070040010000 typed:1 iload_1; if_icmpeq 3; iload_1; ireturn at 4:P I/
# Branches on references.
2 2 2a01a500031bac 0001ff00050002070040010000 ok aload_0; aconst_null; if_acmpeq 3; iload_1; ireturn at 5:P I/
2 2 2a1ba500031bac 0001ff00050002070040010000 typed:2 aload_0; iload_1; if_acmpeq 3; iload_1; ireturn at 5:P I/
2 2 1b2aa500031bac 0001ff00050002070040010000 typed:2 iload_1; aload_0; if_acmpeq 3; iload_1; ireturn at 5:P I/
2 2 2a01a600031bac 0001ff00050002070040010000 ok aload_0; aconst_null; if_acmpne 3; iload_1; ireturn at 5:P I/
2 2 2a1ba600031bac 0001ff00050002070040010000 typed:2 aload_0; iload_1; if_acmpne 3; iload_1; ireturn at 5:P I/
2 2 1b2aa600031bac 0001ff00050002070040010000 typed:2 iload_1; aload_0; if_acmpne 3; iload_1; ireturn at 5:P I/
1 2 2ac600031bac 0001ff00040002070040010000 ok aload_0; ifnull 3; iload_1; ireturn at 4:P I/
1 2 01c600031bac 0001ff00040002070040010000 ok aconst_null; ifnull 3; iload_1; ireturn at 4:P I/
1 2 1bc600031bac 0001ff00040002070040010000 typed:1 iload_1; ifnull 3; iload_1; ireturn at 4:P I/
1 2 2ac700031bac 0001ff00040002070040010000 ok aload_0; ifnonnull 3; iload_1; ireturn at 4:P I/
1 2 01c700031bac 0001ff00040002070040010000 ok aconst_null; ifnonnull 3; iload_1; ireturn at 4:P I/
1 2 1bc700031bac 0001ff00040002070040010000 typed:1 iload_1; ifnonnull 3; iload_1; ireturn at 4:P I/
2 2 2aa500031bac 0001ff00040002070040010000 typed:1 aload_0; if_acmpeq 3; iload_1; ireturn at 4:P I/
2 2 c600031bac 0001ff00030002070040010000 typed:0 ifnull 3; iload_1; ireturn at 3:P I/
# goto, and what stands behind it.
1 2 a700031bac 0001ff00030002070040010000 ok goto 3; iload_1; ireturn at 3:P I/
1 2 a700031bac - typed:0 goto 3; iload_1; ireturn
1 2 a700041b1bac 0001ff00040002070040010000 typed:3 goto 4; iload_1; iload_1; ireturn at 4:P I/
1 2 a70004571bac 0002ff0003000207004001000101ff00000002070040010000 ok goto 4; pop; iload_1; ireturn at 3:P I/I, 4:P I/
0 2 a70000 0001ff00000002070040010000 ok goto 0 at 0:P I/
0 2 a70000 - typed:0 goto 0
1 2 1b57a7fffe 0001ff00000002070040010000 ok iload_1; pop; goto -2 at 0:P I/
1 2 1b57a7ffff 0001ff00000002070040010000 typed:2 iload_1; pop; goto -1 at 0:P I/
1 2 1b57a7ffff 0001ff0001000207004001000101 typed:2 iload_1; pop; goto -1 at 1:P I/I
1 2 1b571ba7fffe 0001ff0001000207004001000101 ok iload_1; pop; iload_1; goto -2 at 1:P I/I
1 2 a700051bac 0001ff00030002070040010000 typed:0 goto 5; iload_1; ireturn at 3:P I/
1 2 a7ffff1bac 0001ff00030002070040010000 typed:0 goto -1; iload_1; ireturn at 3:P I/
1 2 a77fff1bac 0001ff00030002070040010000 typed:0 goto 32767; iload_1; ireturn at 3:P I/
1 2 a780001bac 0001ff00030002070040010000 typed:0 goto -32768; iload_1; ireturn at 3:P I/
1 2 1bac1bac - typed:2 iload_1; ireturn; iload_1; ireturn
1 2 1bac1bac 0001ff00020002070040010000 ok iload_1; ireturn; iload_1; ireturn at 2:P I/
# Switches: the default and each case is a target.
1 2 1baa000000000017000000000000000100000017000000181bac 0001ff00180002070040010000 typed:1 iload_1; tableswitch 23 0 23 24; iload_1; ireturn at 24:P I/
1 2 1baa000000000017000000000000000100000017000000171bac 0001ff00180002070040010000 ok iload_1; tableswitch 23 0 23 23; iload_1; ireturn at 24:P I/
1 2 1baa000000000019000000000000000100000017000000171bac 0001ff00180002070040010000 typed:1 iload_1; tableswitch 25 0 23 23; iload_1; ireturn at 24:P I/
1 2 1baa000000000017000000000000000100000019000000171bac 0001ff00180002070040010000 typed:1 iload_1; tableswitch 23 0 25 23; iload_1; ireturn at 24:P I/
1 2 1baa000000000017000000000000000100000017ffffffff1bac 0002ff00000002070040010000ff00170002070040010000 ok iload_1; tableswitch 23 0 23 -1; iload_1; ireturn at 0:P I/, 24:P I/
1 2 1baa000000000017000000000000000100000017fffffffe1bac 0002ff00000002070040010000ff00170002070040010000 typed:1 iload_1; tableswitch 23 0 23 -2; iload_1; ireturn at 0:P I/, 24:P I/
1 2 2aaa000000000017000000000000000100000017000000171bac 0001ff00180002070040010000 typed:1 aload_0; tableswitch 23 0 23 23; iload_1; ireturn at 24:P I/
1 2 1baa000000000017000000000000000100000017000000171bac 0001ff00190002070040010000 typed:1 iload_1; tableswitch 23 0 23 23; iload_1; ireturn at 25:P I/
1 2 1baa0000ffffffff0000000000000001ffffffffffffffff1bac 0001ff00000002070040010000 typed:24 iload_1; tableswitch -1 0 -1 -1; iload_1; ireturn at 0:P I/
1 2 1bab00000000001b00000002000000010000001b000000090000001b1bac 0001ff001c0002070040010000 ok iload_1; lookupswitch 27 1:27 9:27; iload_1; ireturn at 28:P I/
1 2 1bab00000000001d00000002000000010000001b000000090000001b1bac 0001ff001c0002070040010000 typed:1 iload_1; lookupswitch 29 1:27 9:27; iload_1; ireturn at 28:P I/
1 2 1bab00000000001b00000002000000010000001b000000090000001d1bac 0001ff001c0002070040010000 typed:1 iload_1; lookupswitch 27 1:27 9:29; iload_1; ireturn at 28:P I/
1 2 1bab00000000001b0000000200000001ffffffff000000090000001b1bac 0002ff00000002070040010000ff001b0002070040010000 ok iload_1; lookupswitch 27 1:-1 9:27; iload_1; ireturn at 0:P I/, 28:P I/
1 2 01ab00000000001b00000002000000010000001b000000090000001b1bac 0001ff001c0002070040010000 typed:1 aconst_null; lookupswitch 27 1:27 9:27; iload_1; ireturn at 28:P I/
1 2 1bab0000ffffffff0000000200000001ffffffff00000009ffffffff1bac 0001ff00000002070040010000 typed:28 iload_1; lookupswitch -1 1:-1 9:-1; iload_1; ireturn at 0:P I/
1 2 1bab00000000000b000000001bac 0001ff000c0002070040010000 ok iload_1; lookupswitch 11; iload_1; ireturn at 12:P I/
1 2 1bab00000000000a000000001bac 0001ff000c0002070040010000 typed:1 iload_1; lookupswitch 10; iload_1; ireturn at 12:P I/
# The last instruction does not go on.
1 2 1b - typed:0 iload_1
1 2 1b57 - typed:1 iload_1; pop
1 2 1b99ffff 0001ff00000002070040010000 typed:1 iload_1; ifeq -1 at 0:P I/
1 2 1baa0000ffffffff0000000000000000ffffffff 0001ff00000002070040010000 ok iload_1; tableswitch -1 0 -1 at 0:P I/
# Calls: arguments from the top down, a Long as two places, and the result.
2 3 14000bb800124d1bac - ok ldc2_w long; invoke integer; astore_2; iload_1; ireturn
2 3 1b1bb800124d1bac - typed:2 iload_1; iload_1; invoke integer; astore_2; iload_1; ireturn
1 2 120ab80016571bac - ok ldc str; invoke lit; pop; iload_1; ireturn
1 2 01b80016571bac - ok aconst_null; invoke lit; pop; iload_1; ireturn
1 2 2ab80016571bac - typed:1 aload_0; invoke lit; pop; iload_1; ireturn
1 2 1bb80016571bac - typed:1 iload_1; invoke lit; pop; iload_1; ireturn
1 2 b80016571bac - typed:0 invoke lit; pop; iload_1; ireturn
2 2 0101b8001a571bac - ok aconst_null; aconst_null; invoke cons; pop; iload_1; ireturn
2 2 012ab8001a571bac - typed:2 aconst_null; aload_0; invoke cons; pop; iload_1; ireturn
2 2 2a01b8001a571bac - typed:2 aload_0; aconst_null; invoke cons; pop; iload_1; ireturn
2 2 2a01b800261bac - ok aload_0; aconst_null; invoke keep; iload_1; ireturn
2 2 012ab800261bac - typed:2 aconst_null; aload_0; invoke keep; iload_1; ireturn
1 2 2ab8001e1bac - ok aload_0; invoke enter; iload_1; ireturn
1 2 2ab8001eac - typed:4 aload_0; invoke enter; ireturn
1 2 2ab80022ac - ok aload_0; invoke more; ireturn
1 2 2ab8002aac - typed:4 aload_0; invoke result; ireturn
2 3 2a1bb8002eb80016571bac - typed:5 aload_0; iload_1; invoke take_trace; invoke lit; pop; iload_1; ireturn
2 2 2a1bb80030ac - ok aload_0; iload_1; invoke own; ireturn
2 2 2a1bb80032ac - ok aload_0; iload_1; invoke own_other; ireturn
2 2 1b2ab80030ac - typed:2 iload_1; aload_0; invoke own; ireturn
2 2 011bb80030ac - ok aconst_null; iload_1; invoke own; ireturn
# Calls of what there is not, which comes before a type at one instruction.
2 2 2a1bb80035ac - linked:2 aload_0; iload_1; invoke absent; ireturn
2 2 120ab80037571bac - linked:2 ldc str; invoke by_name; pop; iload_1; ireturn
2 2 2a1bb80038ac - linked:2 aload_0; iload_1; invoke elsewhere; ireturn
2 2 2a1bb80039ac - linked:2 aload_0; iload_1; invoke not_there; ireturn
2 2 14000bb8003a571bac - linked:3 ldc2_w long; invoke rt_in_own; pop; iload_1; ireturn
2 2 14000bb8003c571bac - linked:3 ldc2_w long; invoke own_other_type; pop; iload_1; ireturn
2 2 b80035ac - linked:0 invoke absent; ireturn
2 2 57b80035ac - typed:0 pop; invoke absent; ireturn
2 2 a70006b800351bac 0001ff00060002070040010000 linked:3 goto 6; invoke absent; iload_1; ireturn at 6:P I/
2 2 b80035 0001ff0000000207003e010000 linked:0 invoke absent at 0:T I/
2 2 1bacb80035 - linked:2 iload_1; ireturn; invoke absent
# Maps: a frame stands where an instruction begins, and has room.
1 2 110007ac 0001ff00010002070040010000 map sipush 7; ireturn at 1:P I/
1 2 110007ac 0001ff00020002070040010000 map sipush 7; ireturn at 2:P I/
1 2 1bac 0001ff00020002070040010000 map iload_1; ireturn at 2:P I/
1 2 1bac 0001ff0001000207004001000101 ok iload_1; ireturn at 1:P I/I
1 2 1bac 0002ff00000002070040010000ff0000000207004001000101 ok iload_1; ireturn at 0:P I/, 1:P I/I
1 2 1bac 0002ff0001000207004001000101ff00000002070040010000 map iload_1; ireturn at 1:P I/I, 2:P I/
1 2 1bac 0001ff000100030700400100000101 map iload_1; ireturn at 1:P I Top/I
1 3 1bac 0001ff000100030700400100000101 ok iload_1; ireturn at 1:P I Top/I
1 3 1bac 0001ff000100030700400104000101 map iload_1; ireturn at 1:P I J/I
1 2 1bac 0001ff000100020700400100020101 map iload_1; ireturn at 1:P I/I I
2 2 1bac 0001ff000100020700400100020101 typed:1 iload_1; ireturn at 1:P I/I I
1 2 1bac 0001ff0001000207004001000104 map iload_1; ireturn at 1:P I/J
2 2 14000ba700031bac 0001ff0006000207004001000104 typed:6 ldc2_w long; goto 3; iload_1; ireturn at 6:P I/J
3 2 14000ba700031bac 0001ff0006000207004001000104 ok ldc2_w long; goto 3; iload_1; ireturn at 6:P I/J
1 2 1bac 0000 ok iload_1; ireturn
1 2 1bac 000000 map iload_1; ireturn
1 2 1bac 0001 map iload_1; ireturn
1 2 1bac 00014101 ok iload_1; ireturn
1 2 1bac 00014001 typed:0 iload_1; ireturn
1 2 1bac 000180 map iload_1; ireturn
1 2 2aac 0001ff map aload_0; ireturn
1 2 1bac 0001fa0001 typed:1 iload_1; ireturn
1 2 1ba70003ac 00014401 ok iload_1; goto 3; ireturn
1 2 1ba70003ac 0001f7000401 ok iload_1; goto 3; ireturn
1 2 a700031bac 000103 ok goto 3; iload_1; ireturn
1 2 a700031bac 0001fb0003 ok goto 3; iload_1; ireturn
1 2 a700031bac 0001fa0003 typed:3 goto 3; iload_1; ireturn
1 2 a7000303ac 0001f90003 ok goto 3; iconst_0; ireturn
1 2 a7000303ac 0001f80003 map goto 3; iconst_0; ireturn
1 3 a700031bac 0001fc000300 ok goto 3; iload_1; ireturn
1 3 a700031bac 0001fc000301 typed:0 goto 3; iload_1; ireturn
# At a frame: the state before fits it, from the instruction before and from each branch.
1 2 1bac 0001ff00000002070040010000 ok iload_1; ireturn at 0:P I/
1 2 1bac 0001ff00000002070004010000 ok iload_1; ireturn at 0:O I/
1 2 1bac 0001ff0000000200010000 ok iload_1; ireturn at 0:Top I/
1 2 1bac 0001ff0000000207003e010000 typed:0 iload_1; ireturn at 0:T I/
1 2 1bac 0001ff0000000205010000 typed:0 iload_1; ireturn at 0:Null I/
1 2 1bac 0001ff0000000207004001000101 typed:0 iload_1; ireturn at 0:P I/I
1 2 1bac 0001ff000000010700400000 typed:0 iload_1; ireturn at 0:P/
1 2 1bac 0001ff00010002070040010000 typed:1 iload_1; ireturn at 1:P I/
1 2 1bac 0001ff0001000207004001000100 typed:1 iload_1; ireturn at 1:P I/Top
2 2 1b1b990003ac 0001ff0005000207004001000101 ok iload_1; iload_1; ifeq 3; ireturn at 5:P I/I
2 2 1b1b990003ac 0001ff00050002070040010000 typed:2 iload_1; iload_1; ifeq 3; ireturn at 5:P I/
2 2 1b9900031bac 0001ff0004000207004001000101 typed:1 iload_1; ifeq 3; iload_1; ireturn at 4:P I/I
# Assignability, at a branch: what the third local holds, and what the frame asks for.
1 3 1b3da700031bac 0001ff0005000307004001000000 ok iload_1; istore_2; goto 3; iload_1; ireturn at 5:P I Top/
1 3 1b3da700031bac 0001ff0005000307004001010000 ok iload_1; istore_2; goto 3; iload_1; ireturn at 5:P I I/
1 3 1b3da700031bac 0001ff0005000307004001050000 typed:2 iload_1; istore_2; goto 3; iload_1; ireturn at 5:P I Null/
1 3 1b3da700031bac 0001ff00050003070040010700400000 typed:2 iload_1; istore_2; goto 3; iload_1; ireturn at 5:P I P/
1 3 1b3da700031bac 0001ff000500030700400107003e0000 typed:2 iload_1; istore_2; goto 3; iload_1; ireturn at 5:P I T/
1 3 1b3da700031bac 0001ff00050003070040010700040000 typed:2 iload_1; istore_2; goto 3; iload_1; ireturn at 5:P I O/
1 3 1b3da700031bac 0001ff00050003070040010700460000 typed:2 iload_1; istore_2; goto 3; iload_1; ireturn at 5:P I X/
1 3 1b3da700031bac 0001ff00050003070040010700440000 typed:2 iload_1; istore_2; goto 3; iload_1; ireturn at 5:P I S/
1 3 014da700031bac 0001ff0005000307004001000000 ok aconst_null; astore_2; goto 3; iload_1; ireturn at 5:P I Top/
1 3 014da700031bac 0001ff0005000307004001010000 typed:2 aconst_null; astore_2; goto 3; iload_1; ireturn at 5:P I I/
1 3 014da700031bac 0001ff0005000307004001050000 ok aconst_null; astore_2; goto 3; iload_1; ireturn at 5:P I Null/
1 3 014da700031bac 0001ff00050003070040010700400000 ok aconst_null; astore_2; goto 3; iload_1; ireturn at 5:P I P/
1 3 014da700031bac 0001ff000500030700400107003e0000 ok aconst_null; astore_2; goto 3; iload_1; ireturn at 5:P I T/
1 3 014da700031bac 0001ff00050003070040010700040000 ok aconst_null; astore_2; goto 3; iload_1; ireturn at 5:P I O/
1 3 014da700031bac 0001ff00050003070040010700460000 ok aconst_null; astore_2; goto 3; iload_1; ireturn at 5:P I X/
1 3 014da700031bac 0001ff00050003070040010700440000 ok aconst_null; astore_2; goto 3; iload_1; ireturn at 5:P I S/
1 3 2a4da700031bac 0001ff0005000307004001000000 ok aload_0; astore_2; goto 3; iload_1; ireturn at 5:P I Top/
1 3 2a4da700031bac 0001ff0005000307004001010000 typed:2 aload_0; astore_2; goto 3; iload_1; ireturn at 5:P I I/
1 3 2a4da700031bac 0001ff0005000307004001050000 typed:2 aload_0; astore_2; goto 3; iload_1; ireturn at 5:P I Null/
1 3 2a4da700031bac 0001ff00050003070040010700400000 ok aload_0; astore_2; goto 3; iload_1; ireturn at 5:P I P/
1 3 2a4da700031bac 0001ff000500030700400107003e0000 typed:2 aload_0; astore_2; goto 3; iload_1; ireturn at 5:P I T/
1 3 2a4da700031bac 0001ff00050003070040010700040000 ok aload_0; astore_2; goto 3; iload_1; ireturn at 5:P I O/
1 3 2a4da700031bac 0001ff00050003070040010700460000 typed:2 aload_0; astore_2; goto 3; iload_1; ireturn at 5:P I X/
1 3 2a4da700031bac 0001ff00050003070040010700440000 typed:2 aload_0; astore_2; goto 3; iload_1; ireturn at 5:P I S/
1 3 120a4da700031bac 0001ff0006000307004001000000 ok ldc str; astore_2; goto 3; iload_1; ireturn at 6:P I Top/
1 3 120a4da700031bac 0001ff0006000307004001010000 typed:3 ldc str; astore_2; goto 3; iload_1; ireturn at 6:P I I/
1 3 120a4da700031bac 0001ff00060003070040010700400000 typed:3 ldc str; astore_2; goto 3; iload_1; ireturn at 6:P I P/
1 3 120a4da700031bac 0001ff000600030700400107003e0000 typed:3 ldc str; astore_2; goto 3; iload_1; ireturn at 6:P I T/
1 3 120a4da700031bac 0001ff00060003070040010700040000 ok ldc str; astore_2; goto 3; iload_1; ireturn at 6:P I O/
1 3 120a4da700031bac 0001ff00060003070040010700440000 ok ldc str; astore_2; goto 3; iload_1; ireturn at 6:P I S/
1 3 2ab8002a4da700031bac 0001ff0008000307004001000000 ok aload_0; invoke result; astore_2; goto 3; iload_1; ireturn at 8:P I Top/
1 3 2ab8002a4da700031bac 0001ff0008000307004001010000 typed:5 aload_0; invoke result; astore_2; goto 3; iload_1; ireturn at 8:P I I/
1 3 2ab8002a4da700031bac 0001ff00080003070040010700400000 typed:5 aload_0; invoke result; astore_2; goto 3; iload_1; ireturn at 8:P I P/
1 3 2ab8002a4da700031bac 0001ff000800030700400107003e0000 ok aload_0; invoke result; astore_2; goto 3; iload_1; ireturn at 8:P I T/
1 3 2ab8002a4da700031bac 0001ff00080003070040010700040000 ok aload_0; invoke result; astore_2; goto 3; iload_1; ireturn at 8:P I O/
1 3 2ab8002a4da700031bac 0001ff00080003070040010700440000 typed:5 aload_0; invoke result; astore_2; goto 3; iload_1; ireturn at 8:P I S/
1 3 a700031bac 0001ff0003000307004001010000 typed:0 goto 3; iload_1; ireturn at 3:P I I/
1 3 a700031bac 0001ff0003000307004001050000 typed:0 goto 3; iload_1; ireturn at 3:P I Null/
1 3 a700031bac 0001ff00030003070040010700400000 typed:0 goto 3; iload_1; ireturn at 3:P I P/
1 3 a700031bac 0001ff00030003070040010700040000 typed:0 goto 3; iload_1; ireturn at 3:P I O/
2 2 14000ba70003a70000 0001ff0006000207004001000104 ok ldc2_w long; goto 3; goto 0 at 6:P I/J
2 2 14000ba70003a70000 0001ff000600020700400100020000 ok ldc2_w long; goto 3; goto 0 at 6:P I/Top Top
2 2 14000ba70003a70000 0001ff0006000207004001000100 typed:3 ldc2_w long; goto 3; goto 0 at 6:P I/Top
2 2 14000ba70003a70000 0001ff000600020700400100020001 typed:3 ldc2_w long; goto 3; goto 0 at 6:P I/Top I
2 2 14000ba70003a70000 0001ff000600020700400100020100 typed:3 ldc2_w long; goto 3; goto 0 at 6:P I/I Top
2 2 14000ba70003a70000 0001ff0006000207004001000101 typed:3 ldc2_w long; goto 3; goto 0 at 6:P I/I
2 2 14000ba70003a70000 0001ff0006000207004001000105 typed:3 ldc2_w long; goto 3; goto 0 at 6:P I/Null
2 2 1b1ba70003a70000 0001ff0005000207004001000104 typed:2 iload_1; iload_1; goto 3; goto 0 at 5:P I/J
2 2 1b1ba70003a70000 0001ff000500020700400100020000 ok iload_1; iload_1; goto 3; goto 0 at 5:P I/Top Top
# A class that two types name is one only where it is the same.
1 3 a70003a700031bac 0002ff00030003070040010700460000ff00020003070040010700460000 typed:0 goto 3; goto 3; iload_1; ireturn at 3:P I X/, 6:P I X/
# The other short forms, and the forms with an operand of one byte or two.
0 2 03ac - typed:0 iconst_0; ireturn
1 2 04ac - ok iconst_1; ireturn
0 2 04ac - typed:0 iconst_1; ireturn
1 2 05ac - ok iconst_2; ireturn
0 2 05ac - typed:0 iconst_2; ireturn
1 2 06ac - ok iconst_3; ireturn
0 2 06ac - typed:0 iconst_3; ireturn
1 2 07ac - ok iconst_4; ireturn
0 2 07ac - typed:0 iconst_4; ireturn
0 2 02ac - typed:0 iconst_m1; ireturn
0 2 08ac - typed:0 iconst_5; ireturn
0 2 0157ac - typed:0 aconst_null; pop; ireturn
0 2 1001ac - typed:0 bipush 1; ireturn
0 2 110001ac - typed:0 sipush 1; ireturn
0 2 1209ac - typed:0 ldc int; ireturn
0 2 13000aac - typed:0 ldc_w str; ireturn
1 4 2a4b2a571bac - ok aload_0; astore_0; aload_0; pop; iload_1; ireturn
1 4 1b4b1bac - typed:1 iload_1; astore_0; iload_1; ireturn
1 4 2a4e2d571bac - ok aload_0; astore_3; aload_3; pop; iload_1; ireturn
1 3 2a4e1bac - typed:1 aload_0; astore_3; iload_1; ireturn
1 4 1b4e1bac - typed:1 iload_1; astore_3; iload_1; ireturn
1 4 1b4d1bac - typed:1 iload_1; astore_2; iload_1; ireturn
1 4 2a3a021902571bac - ok aload_0; astore 2; aload 2; pop; iload_1; ireturn
1 4 1b3a021bac - typed:1 iload_1; astore 2; iload_1; ireturn
1 4 2a3a041bac - typed:1 aload_0; astore 4; iload_1; ireturn
1 4 2a36021bac - typed:1 aload_0; istore 2; iload_1; ireturn
1 4 1b36041bac - typed:1 iload_1; istore 4; iload_1; ireturn
1 4 2a3b1bac - typed:1 aload_0; istore_0; iload_1; ireturn
1 4 2a3d1bac - typed:1 aload_0; istore_2; iload_1; ireturn
1 4 2a3e1bac - typed:1 aload_0; istore_3; iload_1; ireturn
1 4 1bc43600031dac - ok iload_1; wide istore 3; iload_3; ireturn
1 4 2ac43600031bac - typed:1 aload_0; wide istore 3; iload_1; ireturn
1 4 1bc43600041bac - typed:1 iload_1; wide istore 4; iload_1; ireturn
1 4 1bc43a00031bac - typed:1 iload_1; wide astore 3; iload_1; ireturn
1 2 c41900011bac - typed:0 wide aload 1; iload_1; ireturn
1 2 19011bac - typed:0 aload 1; iload_1; ireturn
1 4 1dac - typed:0 iload_3; ireturn
1 4 2d1bac - typed:0 aload_3; iload_1; ireturn
1 5 a700031bac 0001fd00030000 ok goto 3; iload_1; ireturn
1 5 a700031bac 0001fd00030001 typed:0 goto 3; iload_1; ireturn
1 5 a700031bac 0001fe0003000000 ok goto 3; iload_1; ireturn
1 5 a700031bac 0001fe0003000005 typed:0 goto 3; iload_1; ireturn
1 4 a700031bac 0001fe0003000000 map goto 3; iload_1; ireturn
1 2 a700031bac 0001fb0002 map goto 3; iload_1; ireturn
# Each kind of branch asks for a frame at its target.
1 2 1b9900031bac - typed:1 iload_1; ifeq 3; iload_1; ireturn
2 2 1b1b9f00031bac - typed:2 iload_1; iload_1; if_icmpeq 3; iload_1; ireturn
2 2 2a2aa600031bac - typed:2 aload_0; aload_0; if_acmpne 3; iload_1; ireturn
1 2 2ac600031bac - typed:1 aload_0; ifnull 3; iload_1; ireturn
1 2 2ac700031bac - typed:1 aload_0; ifnonnull 3; iload_1; ireturn
";

/// Two methods, `f__0` and `f__1`, as above, and the first that is at fault with what is answered of it.
const PAIRS: &str = "\
1 2 1bac - 1 2 1bac - ok
1 2 1bac - 1 2 2aac - 1 typed:1
1 2 2aac - 1 2 1bac - 0 typed:1
1 2 2aac - 1 2 1bac 000080 0 typed:1
1 2 1bac 000080 1 2 2aac - 0 map
1 2 1bac - 1 2 1bac 000080 1 map
2 2 2a1bb80035ac - 1 2 1bac - ok
1 2 1bac - 2 2 2a1bb80022ac - 1 typed:2
1 2 1bac - 2 2 2a1bb80038ac - 1 linked:2
";

fn put_u2(bytes: &mut Vec<u8>, number: u16) -> Result<(), AllocError> {
    bytes.extend_from_slice(&number.to_be_bytes())
}

fn put_u4(bytes: &mut Vec<u8>, number: usize) -> Result<(), Fail> {
    let number = u32::try_from(number)?;
    Ok(bytes.extend_from_slice(&number.to_be_bytes())?)
}

/// The attributes of a method's code: its map, or none.
fn put_map(alloc: Global, bytes: &mut Vec<u8>, map: &str) -> Result<(), Fail> {
    if map == "-" {
        return Ok(put_u2(bytes, 0)?);
    }
    let map = bytes_of(alloc, map)?;
    put_u2(bytes, 1)?;
    put_u2(bytes, 8)?;
    put_u4(bytes, map.len())?;
    Ok(bytes.extend_from_slice(&map)?)
}

/// A method whose name has that index, from the next four words.
fn put_method<'a>(
    alloc: Global,
    bytes: &mut Vec<u8>,
    name: u16,
    words: &mut std::str::Split<'a, char>,
) -> Result<(), Fail> {
    let mut content = Vec::new(alloc);
    put_u2(&mut content, word(words).parse::<u16>()?)?;
    put_u2(&mut content, word(words).parse::<u16>()?)?;
    let code = bytes_of(alloc, word(words))?;
    put_u4(&mut content, code.len())?;
    content.extend_from_slice(&code)?;
    put_u2(&mut content, 0)?;
    put_map(alloc, &mut content, word(words))?;
    for number in [9, name, 6, 1, 7] {
        put_u2(bytes, number)?;
    }
    put_u4(bytes, content.len())?;
    Ok(bytes.extend_from_slice(&content)?)
}

/// A class with so many methods, from the next words.
fn class_of<'a>(
    alloc: Global,
    count: u16,
    words: &mut std::str::Split<'a, char>,
) -> Result<Vec<u8>, Fail> {
    let mut bytes = bytes_of(alloc, HEAD)?;
    put_u2(&mut bytes, count)?;
    put_method(alloc, &mut bytes, 5, words)?;
    if count == 2 {
        put_method(alloc, &mut bytes, 51, words)?;
    }
    put_u2(&mut bytes, 0)?;
    Ok(bytes)
}

fn verdict(alloc: Global, bytes: &[u8]) -> Result<Result<Verified, Refused>, Fail> {
    Ok(verify(alloc, parse(alloc, bytes)?))
}

fn is_told(verdict: &Result<Verified, Refused>, method: usize, told: &str) -> Result<bool, Fail> {
    let Err(refused) = verdict else {
        return Ok(told == "ok");
    };
    let mut parts = told.split(':');
    let kind = word(&mut parts);
    Ok(match refused.fault {
        VerifyFault::BadMap { method: at } => kind == "map" && at == method,
        VerifyFault::NotTyped { method: at, offset } => {
            kind == "typed" && at == method && word(&mut parts).parse::<u16>()? == offset
        }
        VerifyFault::NotLinked { method: at, offset } => {
            kind == "linked" && at == method && word(&mut parts).parse::<u16>()? == offset
        }
        VerifyFault::NoMemory => false,
    })
}

#[test]
fn each_rule(rt: HostRuntime) -> Result<(), Fail> {
    let mut count = 0u16;
    for line in ROWS.lines() {
        if line.starts_with("# ") {
            continue;
        }
        let mut words = line.split(' ');
        let class = class_of(rt.alloc(), 1, &mut words)?;
        let answer = verdict(rt.alloc(), &class)?;
        assert!(rt; is_told(&answer, 0, word(&mut words))?, "{line}");
        count = u16::wrapping_add(count, 1);
    }
    assert_eq!(rt; count, 338);
    Ok(())
}

#[test]
fn first_method_at_fault(rt: HostRuntime) -> Result<(), Fail> {
    for line in PAIRS.lines() {
        let mut words = line.split(' ');
        let class = class_of(rt.alloc(), 2, &mut words)?;
        let answer = verdict(rt.alloc(), &class)?;
        let first = word(&mut words);
        if first == "ok" {
            assert!(rt; answer.is_ok(), "{line}");
        } else {
            let method = first.parse::<usize>()?;
            assert!(rt; is_told(&answer, method, word(&mut words))?, "{line}");
        }
    }
    Ok(())
}
