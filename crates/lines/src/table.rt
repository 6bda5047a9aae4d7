// The classes of the 256 bytes, as a table.
ghost use Rattle.lines.specs.Bytes.{Ranked};

use crate::Class;

// Entry b is the class of byte b.
const CLASSES: [Class; 256] = [
    Class::Other, // 0
    Class::Other, // 1
    Class::Other, // 2
    Class::Other, // 3
    Class::Other, // 4
    Class::Other, // 5
    Class::Other, // 6
    Class::Other, // 7
    Class::Other, // 8
    Class::Blank, // 9: tab
    Class::LineEnd, // 10: line feed
    Class::Other, // 11
    Class::Other, // 12
    Class::Blank, // 13: carriage return
    Class::Other, // 14
    Class::Other, // 15
    Class::Other, // 16
    Class::Other, // 17
    Class::Other, // 18
    Class::Other, // 19
    Class::Other, // 20
    Class::Other, // 21
    Class::Other, // 22
    Class::Other, // 23
    Class::Other, // 24
    Class::Other, // 25
    Class::Other, // 26
    Class::Other, // 27
    Class::Other, // 28
    Class::Other, // 29
    Class::Other, // 30
    Class::Other, // 31
    Class::Blank, // 32: space
    Class::Other, // 33: !
    Class::Other, // 34: "
    Class::Other, // 35: #
    Class::Other, // 36: $
    Class::Other, // 37: %
    Class::Other, // 38: &
    Class::Other, // 39: '
    Class::Other, // 40: (
    Class::Other, // 41: )
    Class::Other, // 42: *
    Class::Other, // 43: +
    Class::Other, // 44: ,
    Class::Minus, // 45: -
    Class::Other, // 46: .
    Class::Other, // 47: /
    Class::Digit, // 48: 0
    Class::Digit, // 49: 1
    Class::Digit, // 50: 2
    Class::Digit, // 51: 3
    Class::Digit, // 52: 4
    Class::Digit, // 53: 5
    Class::Digit, // 54: 6
    Class::Digit, // 55: 7
    Class::Digit, // 56: 8
    Class::Digit, // 57: 9
    Class::Other, // 58: :
    Class::Other, // 59: ;
    Class::Other, // 60: <
    Class::Other, // 61: =
    Class::Other, // 62: >
    Class::Other, // 63: ?
    Class::Other, // 64: @
    Class::Letter, // 65: A
    Class::Letter, // 66: B
    Class::Letter, // 67: C
    Class::Letter, // 68: D
    Class::Letter, // 69: E
    Class::Letter, // 70: F
    Class::Letter, // 71: G
    Class::Letter, // 72: H
    Class::Letter, // 73: I
    Class::Letter, // 74: J
    Class::Letter, // 75: K
    Class::Letter, // 76: L
    Class::Letter, // 77: M
    Class::Letter, // 78: N
    Class::Letter, // 79: O
    Class::Letter, // 80: P
    Class::Letter, // 81: Q
    Class::Letter, // 82: R
    Class::Letter, // 83: S
    Class::Letter, // 84: T
    Class::Letter, // 85: U
    Class::Letter, // 86: V
    Class::Letter, // 87: W
    Class::Letter, // 88: X
    Class::Letter, // 89: Y
    Class::Letter, // 90: Z
    Class::Other, // 91: [
    Class::Other, // 92: \
    Class::Other, // 93: ]
    Class::Other, // 94: ^
    Class::Other, // 95: _
    Class::Other, // 96: `
    Class::Letter, // 97: a
    Class::Letter, // 98: b
    Class::Letter, // 99: c
    Class::Letter, // 100: d
    Class::Letter, // 101: e
    Class::Letter, // 102: f
    Class::Letter, // 103: g
    Class::Letter, // 104: h
    Class::Letter, // 105: i
    Class::Letter, // 106: j
    Class::Letter, // 107: k
    Class::Letter, // 108: l
    Class::Letter, // 109: m
    Class::Letter, // 110: n
    Class::Letter, // 111: o
    Class::Letter, // 112: p
    Class::Letter, // 113: q
    Class::Letter, // 114: r
    Class::Letter, // 115: s
    Class::Letter, // 116: t
    Class::Letter, // 117: u
    Class::Letter, // 118: v
    Class::Letter, // 119: w
    Class::Letter, // 120: x
    Class::Letter, // 121: y
    Class::Letter, // 122: z
    Class::Other, // 123: {
    Class::Other, // 124: |
    Class::Other, // 125: }
    Class::Other, // 126: ~
    Class::Other, // 127
    Class::Other, // 128
    Class::Other, // 129
    Class::Other, // 130
    Class::Other, // 131
    Class::Other, // 132
    Class::Other, // 133
    Class::Other, // 134
    Class::Other, // 135
    Class::Other, // 136
    Class::Other, // 137
    Class::Other, // 138
    Class::Other, // 139
    Class::Other, // 140
    Class::Other, // 141
    Class::Other, // 142
    Class::Other, // 143
    Class::Other, // 144
    Class::Other, // 145
    Class::Other, // 146
    Class::Other, // 147
    Class::Other, // 148
    Class::Other, // 149
    Class::Other, // 150
    Class::Other, // 151
    Class::Other, // 152
    Class::Other, // 153
    Class::Other, // 154
    Class::Other, // 155
    Class::Other, // 156
    Class::Other, // 157
    Class::Other, // 158
    Class::Other, // 159
    Class::Other, // 160
    Class::Other, // 161
    Class::Other, // 162
    Class::Other, // 163
    Class::Other, // 164
    Class::Other, // 165
    Class::Other, // 166
    Class::Other, // 167
    Class::Other, // 168
    Class::Other, // 169
    Class::Other, // 170
    Class::Other, // 171
    Class::Other, // 172
    Class::Other, // 173
    Class::Other, // 174
    Class::Other, // 175
    Class::Other, // 176
    Class::Other, // 177
    Class::Other, // 178
    Class::Other, // 179
    Class::Other, // 180
    Class::Other, // 181
    Class::Other, // 182
    Class::Other, // 183
    Class::Other, // 184
    Class::Other, // 185
    Class::Other, // 186
    Class::Other, // 187
    Class::Other, // 188
    Class::Other, // 189
    Class::Other, // 190
    Class::Other, // 191
    Class::Other, // 192
    Class::Other, // 193
    Class::Other, // 194
    Class::Other, // 195
    Class::Other, // 196
    Class::Other, // 197
    Class::Other, // 198
    Class::Other, // 199
    Class::Other, // 200
    Class::Other, // 201
    Class::Other, // 202
    Class::Other, // 203
    Class::Other, // 204
    Class::Other, // 205
    Class::Other, // 206
    Class::Other, // 207
    Class::Other, // 208
    Class::Other, // 209
    Class::Other, // 210
    Class::Other, // 211
    Class::Other, // 212
    Class::Other, // 213
    Class::Other, // 214
    Class::Other, // 215
    Class::Other, // 216
    Class::Other, // 217
    Class::Other, // 218
    Class::Other, // 219
    Class::Other, // 220
    Class::Other, // 221
    Class::Other, // 222
    Class::Other, // 223
    Class::Other, // 224
    Class::Other, // 225
    Class::Other, // 226
    Class::Other, // 227
    Class::Other, // 228
    Class::Other, // 229
    Class::Other, // 230
    Class::Other, // 231
    Class::Other, // 232
    Class::Other, // 233
    Class::Other, // 234
    Class::Other, // 235
    Class::Other, // 236
    Class::Other, // 237
    Class::Other, // 238
    Class::Other, // 239
    Class::Other, // 240
    Class::Other, // 241
    Class::Other, // 242
    Class::Other, // 243
    Class::Other, // 244
    Class::Other, // 245
    Class::Other, // 246
    Class::Other, // 247
    Class::Other, // 248
    Class::Other, // 249
    Class::Other, // 250
    Class::Other, // 251
    Class::Other, // 252
    Class::Other, // 253
    Class::Other, // 254
    Class::Other, // 255
];

// The table. An index that the compiler does not know has it laid out on the stack, in each call anew.
pub(crate) fn classes() -> [Class; 256]
    ensures { Ranked result }
{
    CLASSES
}
