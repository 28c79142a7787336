//! Small classes, cut at each byte and with each byte changed, with the first field that fails then (JVMS SE 7, chapter 4).

use crate::rows::{bytes_of, word};
use class_file::{ClassFault, parse};
use jvm_code::Op;
use std::alloc::{AllocError, Global};
use std::test::Fail;

/// A class with one method, `iload_1; ireturn`, in hexadecimal.
const SMALL: &str = "\
cafebabe00000032000801000765726c2f6d2f610700010100106a6176612f6c616e672f4f626a656374070003010004665f5f3001000e\
284c65726c2f50726f633b492949010004436f6465002100020004000000000001000900050006000100070000000e0001000200000002\
1bac000000000000";

/// Where its fields begin: cut before its end, it fails at the last of them that is not whole.
const SMALL_FIELDS: &str =
    "0 4 6 8 10 20 23 42 45 52 69 76 78 80 82 84 86 88 90 92 94 96 98 102 104 106 110 111 112 114 116";

/// A place of a byte, what it is changed to, and what fails then.
const SMALL_CHANGES: &str = "\
0 0 no:0, 0 255 no:0, 0 203 no:0, 1 0 no:0, 1 255 no:0, 2 0 no:0, 2 255 no:0, 2 187 no:0, 3 0 no:0, 3 255 no:0
3 191 no:0, 4 255 out:4, 4 1 out:4, 5 255 out:4, 5 1 out:4, 6 255 out:6, 6 1 out:6, 7 0 out:6, 7 255 out:6
7 51 out:6, 8 255 no:76, 8 1 no:76, 9 0 no:8, 9 255 no:76, 9 9 no:76, 10 0 no:10, 10 255 no:10, 10 2 no:10
11 255 no:10, 11 1 no:10, 12 0 no:13, 12 255 no:10, 12 8 no:21, 13 0 no:10, 13 255 no:10, 13 102 out:78
14 0 no:10, 14 255 no:10, 14 115 out:78, 15 0 no:10, 15 255 no:10, 15 109 out:78, 16 0 no:10, 16 255 no:10
16 48 out:78, 17 0 no:10, 17 255 no:10, 17 110 out:78, 18 0 no:10, 18 255 no:10, 18 48 out:78, 19 0 no:10
19 255 no:10, 19 98 ok, 20 0 no:20, 20 255 no:20, 20 8 no:78, 21 255 no:20, 21 1 no:20, 22 0 no:20, 22 255 no:20
22 2 no:20, 23 0 no:23, 23 255 no:23, 23 2 no:23, 24 255 no:23, 24 1 no:23, 25 0 no:26, 25 255 no:23
25 17 no:43, 26 0 no:23, 26 255 no:23, 26 107 out:80, 27 0 no:23, 27 255 no:23, 27 98 out:80, 28 0 no:23
28 255 no:23, 28 119 out:80, 29 0 no:23, 29 255 no:23, 29 98 out:80, 30 0 no:23, 30 255 no:23, 30 48 out:80
31 0 no:23, 31 255 no:23, 31 109 out:80, 32 0 no:23, 32 255 no:23, 32 98 out:80, 33 0 no:23, 33 255 no:23
33 111 out:80, 34 0 no:23, 34 255 no:23, 34 104 out:80, 35 0 no:23, 35 255 no:23, 35 48 out:80, 36 0 no:23
36 255 no:23, 36 80 out:80, 37 0 no:23, 37 255 no:23, 37 99 out:80, 38 0 no:23, 38 255 no:23, 38 107 out:80
39 0 no:23, 39 255 no:23, 39 102 out:80, 40 0 no:23, 40 255 no:23, 40 100 out:80, 41 0 no:23, 41 255 no:23
41 117 out:80, 42 0 no:42, 42 255 no:42, 42 8 no:80, 43 255 no:42, 43 1 no:42, 44 0 no:42, 44 255 no:42
44 4 no:42, 45 0 no:45, 45 255 no:45, 45 2 no:45, 46 255 no:45, 46 1 no:45, 47 0 no:48, 47 255 no:45, 47 5 no:53
48 0 no:45, 48 255 no:45, 48 103 ok, 49 0 no:45, 49 255 no:45, 49 96 out:90, 50 0 no:45, 50 255 no:45
50 96 out:90, 51 0 no:45, 51 255 no:45, 51 49 ok, 52 0 no:52, 52 255 no:52, 52 2 no:52, 53 255 no:52, 53 1 no:52
54 0 no:55, 54 255 no:52, 54 15 no:70, 55 0 no:52, 55 255 no:52, 55 41 out:92, 56 0 no:52, 56 255 no:52
56 77 out:92, 57 0 no:52, 57 255 no:52, 57 102 out:92, 58 0 no:52, 58 255 no:52, 58 115 out:92, 59 0 no:52
59 255 no:52, 59 109 out:92, 60 0 no:52, 60 255 no:52, 60 48 out:92, 61 0 no:52, 61 255 no:52, 61 81 out:92
62 0 no:52, 62 255 no:52, 62 115 out:92, 63 0 no:52, 63 255 no:52, 63 112 out:92, 64 0 no:52, 64 255 no:52
64 100 out:92, 65 0 no:52, 65 255 no:52, 65 60 out:92, 66 0 no:52, 66 255 no:52, 66 74 out:92, 67 0 no:52
67 255 no:52, 67 42 out:92, 68 0 no:52, 68 255 no:52, 68 74 out:92, 69 0 no:69, 69 255 no:69, 69 2 no:69
70 255 no:69, 70 1 no:69, 71 0 out:72, 71 255 no:69, 71 5 no:69, 72 0 no:69, 72 255 no:69, 72 68 out:96
73 0 no:69, 73 255 no:69, 73 112 out:96, 74 0 no:69, 74 255 no:69, 74 101 out:96, 75 0 no:69, 75 255 no:69
75 102 out:96, 76 255 out:76, 76 1 out:76, 77 0 ok, 77 255 out:76, 77 34 out:76, 78 255 no:78, 78 1 no:78
79 0 no:78, 79 255 no:78, 79 3 no:78, 80 255 no:80, 80 1 no:80, 81 0 no:80, 81 255 no:80, 81 5 no:80
82 255 out:82, 82 1 out:82, 83 255 out:82, 83 1 out:82, 84 255 out:84, 84 1 out:84, 85 255 out:84, 85 1 out:84
86 255 out:116, 86 1 out:116, 87 0 out:88, 87 255 out:116, 87 2 out:116, 88 255 out:88, 88 1 out:88, 89 0 out:88
89 255 out:88, 89 10 ok, 90 255 no:90, 90 1 no:90, 91 0 no:90, 91 255 no:90, 91 6 out:90, 92 255 no:92
92 1 no:92, 93 0 no:92, 93 255 no:92, 93 7 out:92, 94 255 out:94, 94 1 out:94, 95 0 out:94, 95 255 out:94
95 2 out:94, 96 255 no:96, 96 1 no:96, 97 0 no:96, 97 255 no:96, 97 8 no:96, 98 255 no:98, 98 1 no:98
99 255 no:98, 99 1 no:98, 100 255 no:98, 100 1 no:98, 101 0 no:98, 101 255 no:98, 101 15 no:98, 102 255 ok
102 1 ok, 103 0 ok, 103 255 ok, 103 2 ok, 104 255 ok, 104 1 ok, 105 0 ok, 105 255 ok, 105 3 ok, 106 255 no:106
106 1 no:106, 107 255 no:106, 107 1 no:106, 108 255 out:112, 108 1 out:112, 109 0 no:106, 109 255 out:112
109 3 out:112, 110 0 out:110, 110 255 out:110, 110 28 ok, 111 0 out:111, 111 255 out:111, 111 173 out:111
112 255 out:112, 112 1 out:112, 113 255 out:112, 113 1 out:112, 114 255 out:114, 114 1 out:114, 115 255 out:114
115 1 out:116, 116 255 out:116, 116 1 out:116, 117 255 out:116, 117 1 out:116
";

/// A class with two methods, with an instruction of each form, and an entry of each kind.
const LARGE: &str = "\
cafebabe00000032001101000b65726c2f6d2f2432445f390700010100106a6176612f6c616e672f4f626a656374070003010006665f5f\
3235350100085f5f30247039393901000e284c65726c2f50726f633b492949010004436f646501000d537461636b4d61705461626c6505\
fffffffffffffffe03ffffffff010007c080eda080dfbf08000d0c000500070a0002000f00310002000400000000000200090005000700\
01000800000097000500020000008201020810c811ff00120c13000e14000a150419ff1a1d2a2d36093a093b3e4b4e57595f6064990003\
9e00039f0003a4ffffa50003a60003a70003aa0000000009fffffffe00000000000000010000000200000003ab00000000000009000000\
02fffffffb000000010000000700000002b80010c4150100c43a0000c60003c70003ac00000001000900000003000105000a0006000700\
0100080000000e000500020000000203ac000000000000";

const LARGE_FIELDS: &str = "\
0 4 6 8 10 24 27 46 49 58 69 86 93 109 118 123 133 136 141 146 148 150 152 154 156 158 160 162 164 166 168 172 174 176 180 181 182 183 185 188 190 193 196 198 200 201 202 203 204 206 208 209 210 211 212 213 214 215 216 217 220 223 226 229 232 235 238 264 292 295 299 303 306 309 310 312 314 316 320 323 325 327 329 331 333 337 339 341 345 346 347 349 351";

const LARGE_CHANGES: &str = "\
0 0 no:0, 0 255 no:0, 0 203 no:0, 1 0 no:0, 1 255 no:0, 2 0 no:0, 2 255 no:0, 2 187 no:0, 3 0 no:0, 3 255 no:0
3 191 no:0, 4 255 out:4, 4 1 out:4, 5 255 out:4, 5 1 out:4, 6 255 out:6, 6 1 out:6, 7 0 out:6, 7 255 out:6
7 51 out:6, 8 255 no:146, 8 1 no:146, 9 0 no:8, 9 255 no:146, 9 18 no:146, 10 0 no:10, 10 255 no:10, 10 2 no:10
11 255 no:10, 11 1 no:10, 12 0 no:13, 12 255 no:10, 12 12 no:25, 13 0 no:10, 13 255 no:10, 13 102 out:148
14 0 no:10, 14 255 no:10, 14 115 out:148, 15 0 no:10, 15 255 no:10, 15 109 out:148, 16 0 no:10, 16 255 no:10
16 48 out:148, 17 0 no:10, 17 255 no:10, 17 110 out:148, 18 0 no:10, 18 255 no:10, 18 48 out:148, 19 0 no:10
19 255 no:10, 19 37 out:148, 20 0 no:10, 20 255 no:10, 20 51 ok, 21 0 no:10, 21 255 no:10, 21 69 ok, 22 0 no:10
22 255 no:10, 22 96 out:148, 23 0 no:10, 23 255 no:10, 23 58 out:148, 24 0 no:24, 24 255 no:24, 24 8 no:141
25 255 no:24, 25 1 no:24, 26 0 no:24, 26 255 no:24, 26 2 no:24, 27 0 no:27, 27 255 no:27, 27 2 no:27
28 255 no:27, 28 1 no:27, 29 0 no:30, 29 255 no:27, 29 17 no:47, 30 0 no:27, 30 255 no:27, 30 107 out:150
31 0 no:27, 31 255 no:27, 31 98 out:150, 32 0 no:27, 32 255 no:27, 32 119 out:150, 33 0 no:27, 33 255 no:27
33 98 out:150, 34 0 no:27, 34 255 no:27, 34 48 out:150, 35 0 no:27, 35 255 no:27, 35 109 out:150, 36 0 no:27
36 255 no:27, 36 98 out:150, 37 0 no:27, 37 255 no:27, 37 111 out:150, 38 0 no:27, 38 255 no:27, 38 104 out:150
39 0 no:27, 39 255 no:27, 39 48 out:150, 40 0 no:27, 40 255 no:27, 40 80 out:150, 41 0 no:27, 41 255 no:27
41 99 out:150, 42 0 no:27, 42 255 no:27, 42 107 out:150, 43 0 no:27, 43 255 no:27, 43 102 out:150, 44 0 no:27
44 255 no:27, 44 100 out:150, 45 0 no:27, 45 255 no:27, 45 117 out:150, 46 0 no:46, 46 255 no:46, 46 8 no:150
47 255 no:46, 47 1 no:46, 48 0 no:46, 48 255 no:46, 48 4 no:46, 49 0 no:49, 49 255 no:49, 49 2 no:49
50 255 no:49, 50 1 no:49, 51 0 no:52, 51 255 no:49, 51 7 no:59, 52 0 no:49, 52 255 no:49, 52 103 ok, 53 0 no:49
53 255 no:49, 53 96 out:160, 54 0 no:49, 54 255 no:49, 54 96 out:160, 55 0 no:49, 55 255 no:49, 55 51 out:160
56 0 no:49, 56 255 no:49, 56 54 out:160, 57 0 no:49, 57 255 no:49, 57 54 out:160, 58 0 no:58, 58 255 no:58
58 2 no:58, 59 255 no:58, 59 1 no:58, 60 0 no:61, 60 255 no:58, 60 9 no:70, 61 0 no:58, 61 255 no:58
61 96 out:325, 62 0 no:58, 62 255 no:58, 62 96 out:325, 63 0 no:58, 63 255 no:58, 63 49 ok, 64 0 no:58
64 255 no:58, 64 37 out:325, 65 0 no:58, 65 255 no:58, 65 113 out:325, 66 0 no:58, 66 255 no:58, 66 58 out:325
67 0 no:58, 67 255 no:58, 67 58 out:325, 68 0 no:58, 68 255 no:58, 68 58 out:325, 69 0 no:69, 69 255 no:69
69 2 no:69, 70 255 no:69, 70 1 no:69, 71 0 no:72, 71 255 no:69, 71 15 no:87, 72 0 no:69, 72 255 no:69
72 41 out:162, 73 0 no:69, 73 255 no:69, 73 77 out:162, 74 0 no:69, 74 255 no:69, 74 102 out:162, 75 0 no:69
75 255 no:69, 75 115 out:162, 76 0 no:69, 76 255 no:69, 76 109 out:162, 77 0 no:69, 77 255 no:69, 77 48 out:162
78 0 no:69, 78 255 no:69, 78 81 out:162, 79 0 no:69, 79 255 no:69, 79 115 out:162, 80 0 no:69, 80 255 no:69
80 112 out:162, 81 0 no:69, 81 255 no:69, 81 100 out:162, 82 0 no:69, 82 255 no:69, 82 60 out:162, 83 0 no:69
83 255 no:69, 83 74 out:162, 84 0 no:69, 84 255 no:69, 84 42 out:162, 85 0 no:69, 85 255 no:69, 85 74 out:162
86 0 no:86, 86 255 no:86, 86 2 no:86, 87 255 no:86, 87 1 no:86, 88 0 no:89, 88 255 no:86, 88 5 no:94, 89 0 no:86
89 255 no:86, 89 68 out:166, 90 0 no:86, 90 255 no:86, 90 112 out:166, 91 0 no:86, 91 255 no:86, 91 101 out:166
92 0 no:86, 92 255 no:86, 92 102 out:166, 93 0 no:93, 93 255 no:93, 93 2 no:93, 94 255 no:93, 94 1 no:93
95 0 no:96, 95 255 no:93, 95 14 no:110, 96 0 no:93, 96 255 no:93, 96 84 out:314, 97 0 no:93, 97 255 no:93
97 117 out:314, 98 0 no:93, 98 255 no:93, 98 98 out:314, 99 0 no:93, 99 255 no:93, 99 100 out:314, 100 0 no:93
100 255 no:93, 100 108 out:314, 101 0 no:93, 101 255 no:93, 101 78 out:314, 102 0 no:93, 102 255 no:93
102 98 out:314, 103 0 no:93, 103 255 no:93, 103 113 out:314, 104 0 no:93, 104 255 no:93, 104 85 out:314
105 0 no:93, 105 255 no:93, 105 98 out:314, 106 0 no:93, 106 255 no:93, 106 99 out:314, 107 0 no:93
107 255 no:93, 107 109 out:314, 108 0 no:93, 108 255 no:93, 108 102 out:314, 109 0 no:109, 109 255 no:109
109 6 out:109, 110 0 ok, 111 0 ok, 112 0 ok, 113 0 ok, 114 0 ok, 115 0 ok, 116 0 ok, 117 0 ok, 117 255 ok
118 0 no:118, 118 255 no:118, 118 4 out:118, 119 0 ok, 120 0 ok, 121 0 ok, 122 0 ok, 123 0 no:123
123 255 no:123, 123 2 no:123, 124 255 no:123, 124 1 no:123, 125 0 no:126, 125 255 no:123, 125 8 no:134
126 0 no:123, 126 255 no:123, 126 193 no:123, 127 0 no:123, 127 255 no:123, 127 129 no:123, 128 0 no:123
128 255 no:123, 128 238 ok, 129 0 no:123, 129 255 no:123, 129 161 ok, 130 0 no:123, 130 255 no:123, 130 129 ok
131 0 no:123, 131 255 no:123, 131 224 no:123, 132 0 no:123, 132 255 no:123, 132 192 no:123, 133 0 no:133
133 255 no:133, 133 9 out:133, 134 255 no:133, 134 1 no:133, 135 0 no:133, 135 255 no:133, 135 14 no:133
136 0 no:136, 136 255 no:136, 136 13 no:136, 137 255 no:136, 137 1 no:136, 138 0 no:136, 138 255 no:136
138 6 ok, 139 255 no:136, 139 1 no:136, 140 0 no:136, 140 255 no:136, 140 8 ok, 141 0 no:141, 141 255 no:141
141 11 out:141, 142 255 no:141, 142 1 no:141, 143 0 no:141, 143 255 no:141, 143 3 no:141, 144 255 no:141
144 1 no:141, 145 0 no:141, 145 255 no:141, 145 16 no:141, 146 255 out:146, 146 1 out:146, 147 0 ok
147 255 out:146, 147 50 out:146, 148 255 no:148, 148 1 no:148, 149 0 no:148, 149 255 no:148, 149 3 no:148
150 255 no:150, 150 1 no:150, 151 0 no:150, 151 255 no:150, 151 5 no:150, 152 255 out:152, 152 1 out:152
153 255 out:152, 153 1 out:152, 154 255 out:154, 154 1 out:154, 155 255 out:154, 155 1 out:154, 156 255 out:351
156 1 out:351, 157 0 out:158, 157 255 out:351, 157 3 out:351, 158 255 out:158, 158 1 out:158, 159 0 out:158
159 255 out:158, 159 10 ok, 160 255 no:160, 160 1 no:160, 161 0 no:160, 161 255 no:160, 161 6 out:160
162 255 no:162, 162 1 no:162, 163 0 no:162, 163 255 no:162, 163 8 out:162, 164 255 out:164, 164 1 out:164
165 0 out:164, 165 255 out:164, 165 2 out:164, 166 255 no:166, 166 1 no:166, 167 0 no:166, 167 255 no:166
167 9 out:166, 168 255 no:168, 168 1 no:168, 169 255 no:168, 169 1 no:168, 170 255 no:168, 170 1 no:168
171 0 no:168, 171 255 no:168, 171 152 no:168, 172 255 ok, 172 1 ok, 173 0 ok, 173 255 ok, 173 6 ok, 174 255 ok
174 1 ok, 175 0 ok, 175 255 ok, 175 3 ok, 176 255 no:176, 176 1 no:176, 177 255 no:176, 177 1 no:176
178 255 out:310, 178 1 out:310, 179 0 no:176, 179 255 out:310, 179 131 out:310, 180 0 out:180, 180 255 out:180
180 2 ok, 181 0 out:181, 181 255 out:181, 181 3 ok, 182 0 out:182, 182 255 out:182, 182 9 out:182, 183 0 out:183
183 255 out:183, 183 17 out:186, 184 0 ok, 184 255 ok, 184 201 ok, 185 0 out:185, 185 255 out:185, 185 18 no:185
186 0 ok, 187 255 ok, 187 1 ok, 188 0 out:188, 188 255 out:188, 188 19 no:188, 189 0 no:188, 189 255 no:188
189 13 no:188, 190 0 out:190, 190 255 out:190, 190 20 no:190, 191 255 no:190, 191 1 no:190, 192 0 no:190
192 255 no:190, 192 15 no:190, 193 0 out:193, 193 255 out:193, 193 21 out:195, 194 255 no:193, 194 1 no:193
195 0 no:193, 195 255 no:193, 195 11 no:193, 196 0 out:196, 196 255 out:196, 196 22 out:196, 197 0 ok
197 255 ok, 197 5 ok, 198 0 out:198, 198 255 out:198, 198 26 out:199, 199 0 ok, 200 0 out:200, 200 255 out:200
200 27 ok, 201 0 out:201, 201 255 out:201, 201 30 out:201, 202 0 out:202, 202 255 out:202, 202 43 ok
203 0 out:203, 203 255 out:203, 203 46 out:203, 204 0 out:204, 204 255 out:204, 204 55 out:204, 205 0 ok
205 255 ok, 205 10 ok, 206 0 out:206, 206 255 out:206, 206 59 out:207, 207 0 ok, 207 255 ok, 207 10 ok
208 0 out:208, 208 255 out:208, 208 60 ok, 209 0 out:209, 209 255 out:209, 209 63 out:209, 210 0 out:210
210 255 out:210, 210 76 ok, 211 0 out:211, 211 255 out:211, 211 79 out:211, 212 0 out:212, 212 255 out:212
212 88 out:212, 213 0 out:213, 213 255 out:213, 213 90 out:213, 214 0 out:214, 214 255 out:214, 214 96 ok
215 0 out:215, 215 255 out:215, 215 97 out:215, 216 0 out:216, 216 255 out:216, 216 101 out:216, 217 0 out:217
217 255 out:217, 217 154 ok, 218 255 ok, 218 1 ok, 219 0 ok, 219 255 ok, 219 4 ok, 220 0 out:220
220 255 out:220, 220 159 ok, 221 255 ok, 221 1 ok, 222 0 ok, 222 255 ok, 222 4 ok, 223 0 out:223
223 255 out:223, 223 160 ok, 224 255 ok, 224 1 ok, 225 0 ok, 225 255 ok, 225 4 ok, 226 0 out:226
226 255 out:226, 226 165 ok, 227 0 ok, 228 0 ok, 229 0 out:229, 229 255 out:229, 229 166 ok, 230 255 ok
230 1 ok, 231 0 ok, 231 255 ok, 231 4 ok, 232 0 out:232, 232 255 out:232, 232 167 ok, 233 255 ok, 233 1 ok
234 0 ok, 234 255 ok, 234 4 ok, 235 0 out:235, 235 255 out:235, 235 168 out:235, 236 255 ok, 236 1 ok, 237 0 ok
237 255 ok, 237 4 ok, 238 0 out:238, 238 255 out:238, 238 171 no:238, 239 255 out:238, 239 1 out:238, 240 255 ok
240 1 ok, 241 255 ok, 241 1 ok, 242 255 ok, 242 1 ok, 243 0 ok, 243 255 ok, 243 10 ok, 244 0 no:238
245 0 no:238, 246 0 no:238, 247 0 no:238, 247 255 out:260, 248 255 no:238, 248 1 no:238, 249 255 no:238
249 1 no:238, 250 255 no:238, 250 1 no:238, 251 255 no:238, 251 1 out:268, 252 255 ok, 252 1 ok, 253 255 ok
253 1 ok, 254 255 ok, 254 1 ok, 255 0 ok, 255 255 ok, 255 2 ok, 256 255 ok, 256 1 ok, 257 255 ok, 257 1 ok
258 255 ok, 258 1 ok, 259 0 ok, 259 255 ok, 259 3 ok, 260 255 ok, 260 1 ok, 261 255 ok, 261 1 ok, 262 255 ok
262 1 ok, 263 0 ok, 263 255 ok, 263 4 ok, 264 0 out:264, 264 255 out:264, 264 172 out:265, 265 255 out:264
265 1 out:264, 266 255 out:264, 266 1 out:264, 267 255 out:264, 267 1 out:264, 268 255 ok, 268 1 ok, 269 255 ok
269 1 ok, 270 255 ok, 270 1 ok, 271 0 ok, 271 255 ok, 271 10 ok, 272 255 no:264, 272 1 no:264, 273 255 no:264
273 1 no:264, 274 255 no:264, 274 1 no:264, 275 0 out:276, 275 255 no:264, 275 3 no:264, 276 0 no:264, 277 0 ok
278 0 ok, 279 0 ok, 279 255 ok, 279 252 ok, 280 255 ok, 280 1 ok, 281 255 ok, 281 1 ok, 282 255 ok, 282 1 ok
283 0 ok, 283 255 ok, 283 2 ok, 284 255 no:264, 284 1 ok, 285 255 ok, 285 1 ok, 286 255 ok, 286 1 ok, 287 0 ok
287 255 ok, 287 8 ok, 288 255 ok, 288 1 ok, 289 255 ok, 289 1 ok, 290 255 ok, 290 1 ok, 291 0 ok, 291 255 ok
291 3 ok, 292 0 out:292, 292 255 out:292, 292 185 out:292, 293 255 no:292, 293 1 no:292, 294 0 no:292
294 255 no:292, 294 17 no:292, 295 0 out:295, 295 255 out:295, 295 197 out:295, 296 0 out:295, 296 255 out:295
296 22 out:295, 297 0 ok, 297 255 ok, 297 2 ok, 298 255 ok, 298 1 ok, 299 0 out:299, 299 255 out:299
299 197 out:299, 300 0 out:299, 300 255 out:299, 300 59 out:299, 301 255 ok, 301 1 ok, 302 255 ok, 302 1 ok
303 0 out:303, 303 255 out:303, 303 199 ok, 304 255 ok, 304 1 ok, 305 0 ok, 305 255 ok, 305 4 ok, 306 0 out:306
306 255 out:306, 306 200 out:306, 307 255 ok, 307 1 ok, 308 0 ok, 308 255 ok, 308 4 ok, 309 0 out:309
309 255 out:309, 309 173 out:309, 310 255 out:310, 310 1 out:310, 311 255 out:310, 311 1 out:310
312 255 out:312, 312 1 out:312, 313 0 no:168, 313 255 out:312, 313 2 out:312, 314 255 out:314, 314 1 out:314
315 0 out:314, 315 255 out:314, 315 10 out:314, 316 255 no:320, 316 1 no:320, 317 255 no:320, 317 1 no:320
318 255 no:320, 318 1 no:320, 319 0 no:168, 319 255 no:320, 319 4 no:168, 320 255 ok, 320 1 ok, 321 0 ok
321 255 ok, 321 2 ok, 322 0 ok, 322 255 ok, 322 6 ok, 323 255 out:323, 323 1 out:323, 324 0 out:323
324 255 out:323, 324 11 out:323, 325 255 no:325, 325 1 no:325, 326 0 no:325, 326 255 no:325, 326 7 out:325
327 255 no:327, 327 1 no:327, 328 0 no:327, 328 255 no:327, 328 8 out:327, 329 255 out:329, 329 1 out:329
330 0 out:329, 330 255 out:329, 330 2 out:329, 331 255 no:331, 331 1 no:331, 332 0 no:331, 332 255 no:331
332 9 out:331, 333 255 no:333, 333 1 no:333, 334 255 no:333, 334 1 no:333, 335 255 no:333, 335 1 no:333
336 0 no:333, 336 255 no:333, 336 15 no:333, 337 255 ok, 337 1 ok, 338 0 ok, 338 255 ok, 338 6 ok, 339 255 ok
339 1 ok, 340 0 ok, 340 255 ok, 340 3 ok, 341 255 no:341, 341 1 no:341, 342 255 no:341, 342 1 no:341
343 255 out:347, 343 1 out:347, 344 0 no:341, 344 255 out:347, 344 3 out:347, 345 0 out:345, 345 255 out:345
345 4 ok, 346 0 out:346, 346 255 out:346, 346 173 out:346, 347 255 out:347, 347 1 out:347, 348 255 out:347
348 1 out:347, 349 255 out:349, 349 1 out:349, 350 255 out:349, 350 1 out:351, 351 255 out:351, 351 1 out:351
352 255 out:351, 352 1 out:351
";

// What comes of bytes: `ok`, or a cause and an offset.
fn answer(alloc: Global, bytes: &[u8]) -> Result<String, AllocError> {
    match parse(alloc, bytes) {
        Ok(_) => format!(in alloc; "ok"),
        Err(ClassFault::NotClass { offset }) => format!(in alloc; "no:{offset}"),
        Err(ClassFault::OutsideProfile { offset }) => format!(in alloc; "out:{offset}"),
        Err(ClassFault::NoMemory) => format!(in alloc; "no memory"),
    }
}

// The bytes cut at each place fail at the field that is cut.
fn cut(alloc: Global, bytes: &[u8], fields: &str) -> Result<usize, Fail> {
    let mut wrong = 0;
    for length in 0..bytes.len() {
        let mut field = 0;
        for start in fields.split(' ') {
            let start = start.parse::<usize>()?;
            if start <= length {
                field = start;
            }
        }
        let expected = format!(in alloc; "no:{field}")?;
        if answer(alloc, &bytes[..length])?.as_str() != expected.as_str() {
            wrong = usize::wrapping_add(wrong, 1);
        }
    }
    Ok(wrong)
}

// Puts a byte in a place, and gives the one that stood there.
fn put(bytes: &mut [u8], place: usize, value: u8) -> u8 {
    match bytes.get_mut(place) {
        Some(byte) => std::mem::replace(byte, value),
        None => 0,
    }
}

// Whether the bytes have another answer than is said, with one of them changed.
fn is_wrong(alloc: Global, bytes: &mut [u8], row: &str) -> Result<bool, Fail> {
    let mut words = row.trim().split(' ');
    let place = word(&mut words).parse::<usize>()?;
    let value = word(&mut words).parse::<u8>()?;
    let before = put(bytes, place, value);
    let answer = answer(alloc, bytes)?;
    let _ = put(bytes, place, before);
    Ok(answer.as_str() != word(&mut words))
}

// How many changes of one byte have another answer than is said.
fn changed(alloc: Global, bytes: &mut [u8], rows: &str) -> Result<usize, Fail> {
    let mut wrong = 0;
    for line in rows.lines() {
        for row in line.split(',') {
            if is_wrong(alloc, bytes, row)? {
                wrong = usize::wrapping_add(wrong, 1);
            }
        }
    }
    Ok(wrong)
}

#[test]
fn a_small_class(rt: HostRuntime) -> Result<(), Fail> {
    let mut bytes = bytes_of(rt.alloc(), SMALL)?;
    assert_eq!(rt; cut(rt.alloc(), bytes.as_slice(), SMALL_FIELDS)?, 0);
    assert_eq!(rt;
        changed(rt.alloc(), bytes.as_mut_slice(), SMALL_CHANGES)?,
        0
    );
    let class = parse(rt.alloc(), bytes.as_slice())?;
    assert_eq!(rt; class.pool.len(), 8);
    assert_eq!(rt; class.methods.len(), 1);
    bytes.push(0)?;
    assert_eq!(rt; answer(rt.alloc(), bytes.as_slice())?.as_str(), "no:118");
    Ok(())
}

#[test]
fn a_class_of_each_form(rt: HostRuntime) -> Result<(), Fail> {
    let mut bytes = bytes_of(rt.alloc(), LARGE)?;
    assert_eq!(rt; cut(rt.alloc(), bytes.as_slice(), LARGE_FIELDS)?, 0);
    assert_eq!(rt;
        changed(rt.alloc(), bytes.as_mut_slice(), LARGE_CHANGES)?,
        0
    );
    let class = parse(rt.alloc(), bytes.as_slice())?;
    let method = class.methods.get(0).ok_or("a method")?;
    let (pc, last) = method.code.get(39).ok_or("an instruction")?;
    assert_eq!(rt; *pc, 129);
    assert!(rt; matches!(last, Op::IReturn));
    Ok(())
}
